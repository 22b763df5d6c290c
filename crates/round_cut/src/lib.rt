// The office over a keeper: requests are answered one after another,
// and each accepted one is kept before it is answered.
//
// What runs an office builds on it, and so does what resumes one. `specs/` says what an office is seen as.
// The words of `office_moves` say what a request results in and what kept tables represent.
// `next_round` makes the round of a cut, for a live office and for kept records that are replayed, so that both make the same one.
// It must never know how records are kept, nor how candidates apply in a round.
#![tactic(auto)]

mod cut;
pub mod fault;
pub mod laws;
mod moves;
mod next;
pub mod office;

pub use fault::{BeginFault, OfficeFault};
pub use next::next_round;
pub use office::Office;
pub use office_moves::{Act, Entry, Refusal, Reply};
