// The command `units`: a bundle with home-state quotas, run as the plain bundle that results from it.
//
// The program builds on it. `quota_units` makes the plain bundle. `specs/Units` says how the command ends with each status, and that
// a candidate who has a seat in a unit lives where the unit is for; `specs/Texts` has the lines of its faults.
// It must never know of the words of a command line, nor how a choice becomes a unit.
#![tactic(auto)]

pub mod laws;
mod telling;
mod units;

pub use units::units_season;
