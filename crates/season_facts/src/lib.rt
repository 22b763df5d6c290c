// The facts of a season that was read, as the office's model looks at them.
//
// Whatever knows both a season and the model depends on it. The model itself does not, so that its proofs do not wait
// for the reader of seasons. It must never know of requests or of keepers.
#![tactic(auto)]

pub mod facts;

pub use facts::says_what_is_sound;
