// The definitions of a step's choice as plain slow programs, and the calls under the choices of a step and of a programme on
// worked cases and two large programmes.
//
// Nothing depends on it. Each plain call's contract is a definition itself, and its body follows the definition's words: it tries
// all placements and all sublists, for a handful of people. So tests on small sheets show that the definitions say what is meant.
// The plain programs know of no fast way: no matching, no order in which people are taken.
// Worked sheets and programmes are in cases/. checks/plain_trials.py compares the choices that the program makes with plain ones on
// drawn sheets and programmes. The tests have calls and values that no input of the program shows by itself.
#![tactic(auto)]

#[cfg(test)]
mod candidates;
#[cfg(test)]
mod certificates;
pub mod certifying;
pub mod choosing;
#[cfg(test)]
mod empty_seats;
#[cfg(test)]
mod large_programmes;
pub mod listing;
#[cfg(test)]
mod matching;
pub mod placing;
#[cfg(test)]
mod programme_states;
pub mod ranking;
#[cfg(test)]
mod step_states;
pub mod sublists;

pub use certifying::canonical;
pub use choosing::{choice, is_choice};
pub use listing::{PlainList, list_of};
pub use placing::honoured;
pub use ranking::is_step;
