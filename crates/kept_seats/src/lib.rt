// Guaranteed seats, for any rule of choice: a programme admits whom its rule chooses, and beyond its seats those who
// are guaranteed a seat there, apply, and are not chosen.
//
// What a round is depends on it. It has no code, and knows of no merit list, no step's seats and no matrix: a rule
// and who is guaranteed where are all that it knows. The programmes are again a rule of choice, so the whole theory
// of `allocations` holds of them.
#![tactic(auto)]
