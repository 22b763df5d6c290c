// The choice lists: which programmes each candidate wants, the most preferred first.
//
// The season and the office depend on it. `specs/` says what a row of the choices gives or what is wrong with it,
// given the rows before it, the register and the matrix. The choices of a body are what its rows give, and its fault
// is the first by rows. There is one list for each candidate of the register, in its order. All lists lie one after
// another in one vector of programme numbers. A list names distinct programmes of the matrix, in whose merit lists
// the candidate has a place. It must never know of rounds, seats or answers.
#![tactic(auto)]

pub mod builder;
pub mod choices;
pub mod fault;
pub mod flat;
pub mod laws;
pub mod seek;

pub use choices::Choices;
pub use fault::{ChoiceFault, ChoiceKind};
pub use flat::FlatLists;
pub use seek::sought;
pub use seeks::Seek;
