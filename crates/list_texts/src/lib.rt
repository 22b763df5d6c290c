// The reader of the list of a programme.
//
// The audit and the dossier depend on it, and `publish` hands it on. A list is read line by line into a reader that
// knows, as numbers, what can still follow. `specs/Listing` defines the text, `specs/ListLines` the same by its lines,
// and `laws` says that what is written is read back. It decides nothing about an allocation. It must never know of
// rounds, rows, commands or sinks.
#![tactic(auto)]

pub mod laws;
mod list_pieces;
mod list_reader;
mod list_stage;
mod list_words;
pub mod lists;
mod numbers;

pub use lists::{ListRead, read_list};
