// A programme's lists, audited: the first clause that they break, or none.
//
// The audit of a season depends on it. From the seats, the version and the applicants it checks each of the lists
// by what a choice must be: the numbers, the people and their order, the size, the certificate, and that nobody could
// take the place of one who is worse. `laws` says that lists which break no clause name the choice of the programme.
// It must never know how a choice is made, nor of rounds or candidates' lists.
#![tactic(auto)]

pub mod ahead;
pub mod audit;
pub mod clause;
pub mod laws;
pub mod needed;
pub mod numbers;
pub mod outside;
pub mod same;
pub mod stand;
pub mod steps;

pub use audit::list_fault;
pub use clause::{Clause, ListFault};
