// The dossier of a season: its bundle, its requests, and the texts that were published of it, read exactly.
//
// Every crate that audits a season depends on it. `specs/Split` says where a dossier is cut into its three parts.
// `specs/Due` and `specs/Papers` say which texts the accepted cuts of its requests publish, in which order, and what
// they say. `specs/Dossier` says which dossier some bytes are, and which of their faults is the first. `specs/Special` says
// where the sections of a special round follow it. It decides nothing about an allocation. It must never know how a round is made or found sound.
#![tactic(auto)]

mod bytes;
mod content;
pub mod dossier;
pub mod due;
pub mod fault;
pub mod laws;
pub mod papers;
pub mod special;
mod splitting;
mod texts;

pub use content::read_bytes;
pub use dossier::Dossier;
pub use due::Due;
pub use fault::DossierFault;
pub use papers::{ListReads, Papers, RoundReads};
pub use special::{SpecialParts, special_parts};
