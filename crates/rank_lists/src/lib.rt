// The merit register: who the candidates are, and where each is placed in the four merit lists.
//
// The reader of the choices, the season and the programmes' choices depend on it. `specs/` says what a row of the
// register gives or what is wrong with it, after the rows before it. The register of a body is what its rows give,
// and its fault is the first by rows. Ids and tokens come from strangers, so they are found by search in sorted order
// and never by a hash with a fixed seed. It must never know of programmes, seats or rounds.
#![tactic(auto)]

pub mod builder;
pub mod entry;
pub mod fault;
pub mod fields;
pub mod laws;
pub mod register;

pub use entry::Entry;
pub use fault::{RankFault, RankKind};
pub use register::Register;
