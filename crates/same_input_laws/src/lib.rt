// That the same input gives the same output of a command: of `check`, `run`, `generate` and `units` for the same bytes, of `resume`
// and `special` over the same kept records, of `audit` and `audit best` for the same dossier. What the office publishes for a season
// and its requests is a dossier, and one that is sound and best has no other rounds and final admissions than these.
//
// Nothing uses it. It has no code but its laws, and knows of no source, no sink and no keeper.
#![tactic(auto)]

pub mod laws;
