// Kept records of a season are replayed: window after window its raises, its answers, its cut, and the seats that the cut published.
// An office resumes so from what a keeper holds.
//
// The commands that continue a season build on it. `specs/Replay` says which state records lead to, and `specs/Faults` which
// fault they have first. `specs/Resume` says what an office is that resumes, and why none does.
// What a row results in, and what a cut does, are words of `office_moves`. The changes are those of `proceedings`.
// It must never know how records are kept.
#![tactic(auto)]

mod compare;
mod course;
mod cut;
pub mod fault;
mod later;
pub mod laws;
pub mod resume;
mod rows;

pub use course::replay;
pub use fault::{ReplayFault, ResumeFault};
pub use resume::{Resume, Unresumed, resume_or_season};
