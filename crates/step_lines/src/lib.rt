// How the list of one step is written: the name of the step, its numbers, and a line for each admitted person with
// the letter of the protected position that they fill, or a dash.
//
// The sheet's output, the published lists and everything that shows a certificate depend on it, so a list is spelled
// the same everywhere. It decides nothing: the caller gives it the people and the pairs. It must never know of
// sheets, programmes or rounds.
#![tactic(auto)]

pub mod lines;

pub use lines::{push_count, push_step_lines};
pub use office_text::{seat_kind_name, step_name};
