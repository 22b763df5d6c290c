// The command `step`: it reads a step sheet and answers whom the sheet's step admits.
//
// The program builds on it, and so does the small program that answers this command alone.
// `specs/Sheet` says what a sheet gives and which fault is its first, row by row, by a judge that sees the rows before.
// A row is the first line, or another line that is not empty. Reading returns exactly that step or exactly that fault.
// `specs/Step` says what the command answers to the bytes of a sheet.
// It must never know of seasons, keepers or other commands.
#![tactic(auto)]

pub mod fault;
pub mod laws;
mod line;
mod row;
pub mod sheet;
mod step;
pub mod text;

pub use fault::{SheetError, SheetFault, SheetKind};
pub use sheet::read_sheet;
pub use step::step_answer;
pub use text::{fault_text, step_text};
