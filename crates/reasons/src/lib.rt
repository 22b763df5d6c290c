// Reasons: what counted against a person at each step of a programme, and what the office answers to anyone who asks
// why.
//
// Types alone. `explain` finds the reasons, the moves of the office report them, and the published texts write them.
// None of these need know how another does it. No function here decides anything.
#![tactic(auto)]

pub mod reason;

pub use reason::{Reason, StepWhy, WhyAnswer};
