// The office as a machine over requests: its state, what each request results in, and the history of what was accepted.
//
// `specs/` says what a move is, with the refusals in their order, and which state a history leads to.
// It also says what kept tables represent, and what the office promises of every state that a history reaches.
// The office over a keeper depends on this crate. This crate must never know how a round is made or how records are kept.
#![tactic(auto)]

pub mod decide;
pub mod laws;
pub mod moves;
pub mod refusal;
pub mod total;

pub use decide::{
    AnswerFacts, Decision, Question, RaiseFacts, judge_answer, judge_cut, judge_list, judge_own,
    judge_raise, judge_round, judge_why,
};
pub use moves::{Act, Entry, Reply};
pub use refusal::Refusal;
pub use total::total_seats;
