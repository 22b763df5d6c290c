// The seat matrix: which seats each programme has in each step, and which of them are protected.
//
// The reader of the choices, the season and the programmes' choices depend on it. `specs/` says what a row of the
// matrix gives or what is wrong with it, after the rows before it. The matrix of a body is what its rows give, and
// its fault is the first by rows. Programmes are numbered from 0 in the order in which they first appear. In every
// matrix no code is listed twice, and a step's protections are among its seats. The seats of a step may be changed;
// this allocates nothing. It must never know of candidates, choices or rounds.
#![tactic(auto)]

pub mod builder;
pub mod entry;
pub mod fault;
pub mod fields;
pub mod laws;
pub mod matrix;
pub mod seats;

pub use entry::{Entry, Home};
pub use fault::{MatrixFault, MatrixKind};
pub use matrix::Matrix;
pub use seats::{ProgrammeSeats, Seating, Seatings};
