// The requests of a script, answered over an office, and the commands that begin a season: `check`, which reads a bundle and
// counts it; `run`, which answers its requests over a keeper;
// `generate`, which makes up a season from a number, and writes its bundle or runs it over a keeper.
//
// The program builds on it, and so do other commands over a keeper. `specs/Runs` says what a run of a script is: each reply is
// written before the next request is handled, or no reply is written and `specs/Tally` says what is counted.
// `specs/Check`, `specs/Run` and `specs/Generated` say what the commands answer to the bytes that a source had left, or to a
// number, how they end with each status, and what the tables of the keeper represent then.
// It must never know the words of a command line, nor how a season is made up.
#![tactic(auto)]

mod bundle;
mod check;
mod fault;
mod generated_run;
mod generated_text;
pub mod laws;
mod office;
mod run;
mod script;
mod summed;
mod tally;

pub use bundle::{bundle_failure, read_bundle};
pub use check::check_answer;
pub use fault::RunFault;
pub use generated_run::run_generated;
pub use generated_text::write_generated;
pub use office::run_office;
pub use run::{run_script, run_season, tell_unbegun};
pub use script::answer_all;
pub use tally::{Tally, count_all};
