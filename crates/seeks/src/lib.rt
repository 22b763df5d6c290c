// What a candidate seeks in a round: which part of their choice list is effective.
//
// The rounds, the moves of the office and the answers to why depend on it. It knows a choice list and a seat matrix.
// It knows nothing of who has which seat, nor of why somebody seeks less than before.
#![tactic(auto)]

pub mod seek;

pub use seek::{Seek, is_sought, push_left};
