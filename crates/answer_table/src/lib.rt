// The accepted turns of each candidate in a window, in constant time.
//
// The proceedings of the office keep one table a window. It knows choices by the place of a candidate in the register, and nothing of what a
// choice leads to.
#![tactic(auto)]

pub mod turns;

pub use turns::AnswerTable;
