// Rounds are made here: candidates apply down their lists, and programmes keep the choice from all who applied.
//
// The office depends on it. `rounds` says what a round must be, and `round_laws` says what follows for the rounds of
// a season. That a round made here is the best allocation, with kept seats for those who are guaranteed one, follows from the theory in `allocations`, from the laws of
// `open_then_category` and from those of `round_laws`. No contract knows in which order candidates apply.
#![tactic(auto)]

mod applications;
mod effective;
mod engine;
mod one_round;
mod programmes;
mod seating;

pub use engine::{plain_round, plain_round_with, round, round_with};
pub use rounds::{Programmes, Round, Seats, Seeks};
