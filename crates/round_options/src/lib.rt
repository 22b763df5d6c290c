// What a candidate may answer to a seat, and what follows from the answer (JoSAA's freeze, float, slide and withdraw).
//
// The moves of the office depend on it. It knows the standing of a candidate.
// It knows nothing of who asks, of windows, or of how a seat is found.
#![tactic(auto)]

pub mod standing;

pub use standing::{Standing, after_cut, allowed, next_seek, standing_of};
