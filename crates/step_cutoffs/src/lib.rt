// Cutoffs: with which places a step admits a person, after it has admitted some.
//
// The cutoffs of programmes depend on it. It chooses nobody. For each set of traits one number decides: a person with
// just these traits is admitted if and only if they have this place or a better one. So one comparison checks a refusal.
// `laws` links the cutoffs to the choice of a step. It must never know of categories, programmes or rounds.
#![tactic(auto)]

pub mod cutoff;
pub mod laws;

pub use cutoff::Cutoff;
