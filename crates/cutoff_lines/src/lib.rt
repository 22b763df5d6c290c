// The cutoffs of a step as a few lines, from whom it admitted.
//
// What shows cutoffs depends on it. A reader finds the lines whose traits they all hold, and takes the widest cutoff.
// `cutoffs_of` promises that this is the cutoff of each set of traits, and that no line could be left out. It must
// never know of categories, programmes or rounds.
#![tactic(auto)]

pub mod laws;
pub mod lines;
mod spare;

pub use lines::{CutoffLine, cutoffs_of};
pub use step_cutoffs::Cutoff;
