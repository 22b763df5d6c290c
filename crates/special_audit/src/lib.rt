// The audit of a dossier that may have a special round behind it.
//
// The command `audit` builds on it. The special round is audited as a season of one round: of the seats that the final
// admissions left, with the lists that were handed in for it. So its clauses are those of every round, and what is worth a
// sound round is worth a sound special round. `specs/Special` says which papers those are, and `specs/Found` what is found of bytes.
// It must never know how a round is made, or in which lines a verdict is written.
#![tactic(auto)]

pub mod found;
pub mod laws;
pub mod special;

pub use found::{Found, FoundFault, find};
pub use special::{SpecialError, special_dossier};
