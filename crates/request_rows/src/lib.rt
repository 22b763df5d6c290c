// The requests of a script: one in each row, without a header.
//
// The season file, the runs and the resumed office depend on it. `specs/` says which request a row is, by its first
// field and the number of its fields, and which row of a script is the first that is none. The reader gives exactly
// that. It must never know whether a candidate, a programme or a window is there, nor what the office answers.
#![tactic(auto)]

pub mod fields;
pub mod script;

pub use script::{Script, ScriptFault, read_script};
