// What keeps the records of a season: its text, the answers, the raises, the published seats and the number of cuts.
//
// The office keeps each accepted request here before it answers, and resumes from what is kept.
// `specs/Keeper` says what is seen of a keeper, and what each call does.
// Two keepers are here, both in memory and always visible. One over a database is in another crate. The rows are in
// `kept_rows`, and handed on. No function here knows what a row means.
#![tactic(auto)]

mod batch;
mod failing;
mod keeper;
mod memory;
mod sure;

pub use batch::{Batch, Put};
pub use failing::MemKeeper;
pub use keeper::{KeepFault, Keeper, Teller};
pub use kept_rows::{AllotRow, AllotRows, AnswerRow, AnswerRows, Kept, RaiseRow, RaiseRows};
pub use sure::SureKeeper;
