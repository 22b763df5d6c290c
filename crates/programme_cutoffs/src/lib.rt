// The cutoffs of a programme: by which of its steps it admits an applicant, and how a person reads its lines.
//
// The cutoffs of rounds depend on it. It has no code but its laws, and knows of no round and no request.
#![tactic(auto)]

pub mod laws;
