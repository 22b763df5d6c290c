// How the texts of the office are spelled: numbers, sets of traits, steps, choices, lines of fields, and which fault
// is the first.
//
// Every reader and writer of a sheet or a request depends on it. Reading allocates nothing and returns parts of the
// bytes that it was given. `specs/` defines each spelling as a function of the bytes, by cases on them, so that a
// reader's contract can name the one value of a text. It knows of no sheet, no command and no file. It must never
// decide what a fault is: a judge of rows, given from above, decides that.
#![tactic(auto)]

pub mod laws;
pub mod lines;
pub mod names;
pub mod number;
pub mod traits;

pub use lines::{drop_cr, next_field, next_text_line, skip_mark, trim_commas};
pub use names::{category_name, is_named, read_choice, read_step, seat_kind_name, step_name};
pub use number::{push_number, read_number};
pub use traits::{letter_of, read_traits, trait_number};
