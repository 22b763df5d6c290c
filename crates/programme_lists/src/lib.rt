// The lists of a programme's steps, and what they must be: the choice of the programme, by the choice of a step
// alone.
//
// The choice of a programme, its reasons, its texts and the rounds depend on it. It computes nothing: it knows who a
// programme's applicants are, what its steps admit and what its lists show. It must never know how a choice is found,
// or of rounds.
#![tactic(auto)]

pub mod programme;

pub use programme::{Programme, StepList};
pub use seat_matrix::{ProgrammeSeats, Seating, Seatings};
