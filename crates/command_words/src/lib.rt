// The words of a command line, read as a command of the office.
//
// The program builds on it. `specs/Words` says how each command is spelled; `clap` divides the words, and the numbers
// among them are read as everywhere in the office.
// It must never know what a command does.
#![tactic(auto)]

pub mod laws;
mod parts;
mod words;

pub use words::{Command, OutKind, Service, Start, Store, WordsFault, read_words};
