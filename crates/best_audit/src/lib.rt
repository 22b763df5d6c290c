// The second verdict on a season's published papers: whether each published round is the best one.
//
// The command of the court depends on it. `best_rounds` replays a dossier that `audit` found sound, makes each round again with the
// engine of the office, and compares it with the text. `specs/Best` says what the second verdict means.
// It alone of the audit names the engine. It must never know how a dossier or a verdict is written, nor change the first verdict.
#![tactic(auto)]

pub mod best;
mod compare;
mod cut;
pub mod laws;
mod sought;
pub mod verdict;

pub use best::{best_rounds, take_next};
pub use verdict::BestVerdict;
