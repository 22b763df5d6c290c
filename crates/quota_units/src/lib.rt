// Home-state quotas: a bundle with units, and the plain bundle that results from it.
//
// The command `units` depends on it. A programme may be divided into a home unit, for candidates of one state, and a unit for all
// others. Choice lists name the programme, and each becomes the unit of the candidate's own state.
// `specs/Input` says what an input is and expands to, `specs/Mapping` what becomes of a choice, `specs/Reads` how the plain bundle
// reads, and `specs/Homes` who lives where.
// It must never know what a seat is given for, what a season is run for, or how a fault is reported.
#![tactic(auto)]

mod ending;
mod expansion;
pub mod fault;
mod head;
mod homes;
mod keys;
pub mod laws;
mod mapping;
mod state;
mod writer;

pub use expansion::expand;
pub use fault::UnitFault;
