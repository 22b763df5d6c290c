// What holds of every state that a history of a season reaches: its rounds are just, and nobody falls; its windows, turns and seats fit together.
//
// The proceedings of the office stand on it. It has no code but its laws, and knows of no array, no keeper and no engine.
#![tactic(auto)]

pub mod laws;
