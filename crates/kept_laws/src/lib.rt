// The laws of guaranteed seats, for the programmes of a season and whoever is guaranteed a seat of one.
//
// It has no code but its laws, and knows of no engine, no state and no request.
#![tactic(auto)]

pub mod laws;
