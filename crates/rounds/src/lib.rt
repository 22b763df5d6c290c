// A round: who seeks what, who has which seat, and the lists of each programme.
//
// The engine makes rounds. The moves of the office and the published texts depend on the type and its facts alone,
// and need not know how one is made. `specs/Round` says what a round must be, by the rule of a bundle version and a
// seat matrix.
#![tactic(auto)]

pub mod round;

pub use round::{Programmes, Round, Seats, Seeks};
