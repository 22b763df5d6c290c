// The cutoffs of a programme, from the lists that a round publishes of it.
//
// The office's replies, their texts and the laws of rounds depend on it. It looks at one programme's lists, and at the
// merit list and the protections that the matrix has for it. It must never know of requests or of how lists are made.
#![tactic(auto)]

pub mod cutoffs;
pub mod laws;

pub use cutoff_lines::Cutoff;
pub use cutoffs::{StepCutoff, cutoffs_in};
