// What doors promise over a keeper that never lets rows wait: laws alone.
//
// Nothing builds on it. An ask without an answer then adds nothing, and the next ask of its link is put at any place from
// where the last answered one left.
// It must never know of keepers, links or doors, only of what was served.
#![tactic(auto)]

pub mod laws;
