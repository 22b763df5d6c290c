// The choice of a programme: open seats first, then those of each category, then those that a category left empty.
//
// Rounds and audits depend on it. `ProgrammeState` makes the same choice from applicants who come one at a time, and
// `lists_of` gives its lists by how many came. `specs/` defines the steps by the choice of a step alone, and
// `laws` says what follows from it when applicants are added or left out. It sorts the applicants once. It honours no
// protection itself: `merit_choice` does. It leaves to `dereserve` how many seats a category left empty and who fills
// them. It must never know of choice lists, of rounds, or of what a candidate holds elsewhere.
#![tactic(auto)]

pub mod choice;
mod filters;
pub mod kept_lists;
pub mod laws;
pub mod state;

pub use choice::programme_choice;
pub use kept_lists::{Tried, lists_of};
pub use merit_choice::Offered;
pub use programme_lists::{Programme, ProgrammeSeats, Seating, Seatings, StepList};
pub use state::ProgrammeState;
