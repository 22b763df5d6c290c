// Standard input and output as a source and a sink, and the words of the command line.
//
// They are the trusted edge of a program: no clause says what the system's streams give and take, or what words it gives.
// They count their errors, and the office cannot see their bytes.
// That they take nothing from the bytes that go through them, nor add to them, is proved for readers and writers with
// visible bytes. They must never know what is read or written.
#![tactic(auto)]

mod streams;
mod words;

pub use streams::{StandardInput, StandardOutput, tell_unheld};
pub use words::words_of;
