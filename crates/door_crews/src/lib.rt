// Workers of one crew over a row of doors, one thread for each door, and what connections and doors have of one history.
//
// The office behind its doors builds on it. Each worker is split off before, and joined again after.
// A type that implements `Crew` says what a door is, how it is served and what a worker carries with it.
// The rest has no code: `specs/Served` is a link and a door as their sessions found and left them, next to the history that is
// finished; `specs/Desk` is what an ask at a desk leaves of what a pass knows; `specs/Workers` what a worker is before and after.
// It knows of no season and no request: how an ask is answered at a place of the history, and when it may stay unanswered, are
// given to it.
#![tactic(auto)]

mod row;

pub use row::{Crew, work_all};
