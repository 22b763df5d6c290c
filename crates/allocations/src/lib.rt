// What a round of applications is worth, for any rule of choice: fair allocations, claims, the best one, and the
// course of the applications.
//
// The engine of rounds, the moves of the office and the laws on raised seats depend on it. It has no code, and knows
// of no merit list, no step's seats and no matrix. A rule says whom a programme admits from which people, and that is
// all.
#![tactic(auto)]
