// The command `audit`. It reads a dossier, which is a season bundle with its requests and what was published for it, maybe with
// a special round behind, and answers whether a clause is broken. `audit best` also answers whether every round is the best one.
//
// The program depends on it. `specs/Audit` says what the command answers to the bytes of a dossier and how it ends.
// `specs/Best` says the same of `audit best`, and `specs/Texts` has its lines.
// It must never know of the words of a command line, nor how a dossier is read or audited.
#![tactic(auto)]

pub mod answer;
pub mod best;
pub mod laws;
mod read;
pub mod second;
mod texts;
mod write;

pub use answer::{Audited, audit_answer};
pub use best::best_answer;
pub use second::Second;
pub use write::{audit_best, audit_season};
