// What the choice of a programme is worth to each of its applicants.
//
// The laws of published rounds use it. It has no code but its laws, and knows of no round and no request.
#![tactic(auto)]

pub mod laws;
