// A kept placement. People come one after another, and a person who can be placed with those kept so far is kept too.
// For a person who cannot, it returns the worst member in whose place the person can be kept.
//
// The members are a largest part of the people who came that can be placed at once. So their number is the number of
// protections that those people honour. The choice of a step depends on it. It knows of no seats and no programme. Of
// merit it knows only which of its members is the worse one. It never says who fills which position: that is the
// certificate's part. It allocates memory once, when it is made.
#![tactic(auto)]

pub mod laws;
pub mod matching;
mod members;
mod spare;

pub use matching::{Augment, Matching};
pub use members::place_of;
