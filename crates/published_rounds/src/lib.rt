// What the seats of a step and of a round are worth to candidates, institutes and courts: of each published round, of a special
// round, and of papers that break no clause.
//
// Nothing but other laws uses it. Most of its laws are about fair seats over a matrix, so a published round, the special round and
// an audited round have them. `specs/Cutoffs` says what a candidate reads off the cutoffs of a round; `specs/Procedures` and
// `specs/Groups` what else would be fair, and who could gain; `specs/Registers` and `specs/Order` what other registers would have
// given. It has no code but its laws, and knows of no array, no keeper and no engine.
#![tactic(auto)]

pub mod laws;
