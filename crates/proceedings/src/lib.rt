// The proceedings of a season: what was accepted, and what is computed from it.
//
// The office combines it with a keeper. `specs/` says that its value is the state after its history.
// Its arrays are by the place of a candidate in the register. It must never know of keepers, nor how a round is made.
#![tactic(auto)]

pub mod book;
mod changes;
mod decide;
mod looks;
mod next;
mod tell;
mod why;

pub use book::Proceedings;
