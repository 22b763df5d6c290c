// The rows that are kept of a season, and its tables as a proof sees them.
//
// The office makes these rows, keepers keep them, and texts, replays and the audit read them.
// `specs/Tables` says what a proof sees of the tables, and what each put does to them.
// It must never know what keeps the rows, nor what a row means.
#![tactic(auto)]

mod rows;

pub use rows::{AllotRow, AllotRows, AnswerRow, AnswerRows, Kept, RaiseRow, RaiseRows};
