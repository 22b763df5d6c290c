// Seats that a category left empty: how many there are, and who fills them.
//
// The choice of a programme, its reasons and the engine that applies candidates one by one depend on it. Empty seats
// that a category gives away in the version of the bundle go to the best candidates with a common place, without
// protections. The others stay empty. `CATEGORY_STEPS` of `office_base` says which category gives up its seats. It must
// never know how the steps before chose, of choice lists, or of rounds.
#![tactic(auto)]

pub mod empty_seats;
pub mod people;

pub use empty_seats::{left_unfilled, unfilled};
pub use people::{commons, fill, is_common};
