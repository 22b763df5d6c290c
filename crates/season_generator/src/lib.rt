// Seasons that are made up from a number: a whole season bundle with its requests, and the summary of one that was
// run.
//
// The command that generates depends on it. `specs/Bundle` defines every row as a function of what is drawn for it,
// and `specs/Draws` defines what is drawn. The call returns exactly these bytes. It draws with a linear congruential
// generator: the same number gives the same season everywhere, and nothing is promised about chance.
// Its laws say that a made-up season is a season bundle and has no fault, over what the readers' `specs/` say.
// No function here reads a season, and it must never know who gets a seat, or of commands.
#![tactic(auto)]

mod bundle;
mod candidates;
mod draws;
pub mod laws;
mod places;
mod profile;
mod programmes;
mod requests;
mod spelling;
mod summary;

pub use bundle::{MOST_GENERATED, generate};
pub use profile::Profile;
pub use summary::{Summary, summary_text};
