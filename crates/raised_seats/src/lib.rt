// The seat matrix with what was raised: its present seats, how many they are in all, and the accepted raises.
//
// The office and the audit keep one each. What a raise costs does not grow with the matrix.
// It is searched for among the raises so far, and those of its window whose keys come after its own are moved by one place.
// It accepts and refuses nothing, and must never know of requests, of histories or of rounds.
#![tactic(auto)]

mod accepted;
pub mod raised;

pub use raised::RaisedSeats;
