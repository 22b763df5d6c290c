// The special round: what final admissions left of a season, and one round more for the seats that are vacant.
//
// The remaining season has the seats and protections that the final rows did not take, and new lists of those without an
// admission. The command on it depends on this crate.
// No function here knows how the lists came or where the round goes, and none changes the office.
#![tactic(auto)]

mod fault;
pub mod laws;
mod left;
mod lists;
mod matrix;
mod office;
mod round_over;
mod rows;
mod season;
mod vacant;

pub use fault::SpecialFault;
pub use office::{remaining, special};
pub use round_over::{Special, special_over};
pub use season::left_season;
