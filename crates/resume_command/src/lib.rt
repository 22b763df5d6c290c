// The command `resume`: an office resumes from what a keeper holds, and the requests that a source gives are answered over it.
//
// The program builds on it, and so do other commands that continue a season. `specs/Resume` says what is written if no office
// resumes, how the command ends with each status, and what the tables of the keeper represent then.
// It must never know the words of a command line, nor other commands that continue a season.
#![tactic(auto)]

pub mod laws;
mod resume;
mod stray;

pub use resume::{resume_office, resume_season};
