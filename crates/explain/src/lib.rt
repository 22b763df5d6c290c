// The reason of a refusal: what counted against a person at each step of a programme.
//
// The moves of the office and everything that shows reasons depend on it. `specs/Reason` defines the reason as a
// function of the programme's lists. A law says that it is just: if a step refuses, all its seats are taken, and with
// the person in place of anybody worse who was admitted fewer protections would be honoured. It allocates nothing. It
// must never know how a choice is found, or of rounds.
#![tactic(auto)]

pub mod laws;
pub mod reason;

pub use reason::why;
pub use reasons::{Reason, StepWhy, WhyAnswer};
