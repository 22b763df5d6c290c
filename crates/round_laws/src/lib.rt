// The laws of the rounds of a season: who may enter them, that its programmes choose well and grow with their seats,
// that a round is fair and one, that nobody falls between two of them, that in a round no other list or answer gives
// more, and that more seats hurt nobody.
//
// The engine that makes rounds and the laws of histories depend on it. It has no code but its laws, and knows of no
// engine, no state and no request.
#![tactic(auto)]

pub mod laws;
