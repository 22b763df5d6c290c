// That only the choice of a step, and of a programme, meets the axioms, and that no single exchange improves a choice.
//
// The laws of cutoffs and the audit of lists build on it. It has no code but its laws, and knows of no round and no request.
#![tactic(auto)]

pub mod laws;
