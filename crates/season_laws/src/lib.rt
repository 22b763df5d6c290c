// What holds of a season between what its layers prove: the replies of the office, its reasons, its rounds, what is published of
// them, which stays word for word, and what is kept of it.
//
// No crate depends on it. It has no code but its laws, and knows of no array, no keeper and no engine.
#![tactic(auto)]

pub mod laws;
