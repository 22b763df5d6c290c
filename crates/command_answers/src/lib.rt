// What a command of the office answers with one text, how it ends, and how that text is written to a sink.
//
// Each command that answers with one text builds on it, and so does the program. `specs/Answers` says what a command
// answers to bytes, and that it is one text. `specs/Writes` says what is written with each status.
// It must never know which commands there are, nor of seats.
#![tactic(auto)]

mod failure;
mod status;
mod telling;

pub use failure::Failure;
pub use status::Status;
pub use telling::{
    finish, tell_failure, tell_keeper_fault, tell_no_memory, tell_usage, write_answer,
};
