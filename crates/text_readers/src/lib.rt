// What every reader of a published text needs: its lines and their parts, and the line of a fault.
//
// The readers of rounds, final admissions and lists depend on it. A text is read line by line into a reader that
// knows, as numbers, what can still follow. `read_lines` finds the line of a fault by that alone. `specs/Reading`
// says which line that is for any grammar. It knows of no text. It must never know of rounds, lists or rows.
#![tactic(auto)]

pub mod fault;
pub mod known;
pub mod parts;
pub mod reading;

pub use fault::TextFault;
pub use known::{codes_are_spelled, small_people};
pub use parts::{after, begins_number, begins_whole, left_after, read_programme, split_at_byte};
pub use reading::{LineReader, read_lines};
