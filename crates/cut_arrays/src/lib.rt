// What the end of a window makes of the arrays along the register: how candidates stand, what they seek next, who is still in, and the rows of
// seats.
//
// The proceedings of the office stand on it. It takes slices and tables of turns, and knows nothing of requests, of windows that are over, or of how
// rounds are made.
#![tactic(auto)]

pub mod allotting;
pub mod leaving;
pub mod seeking;
mod standing;

pub use allotting::{final_rows, kept_programmes, rows_of_round};
pub use leaving::leave_all;
pub use seeking::{place_of, seeks_after};
