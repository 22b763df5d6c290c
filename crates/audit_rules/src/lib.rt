// What an audit of a season's papers means, and the checks of a cut along the register.
//
// The audit itself depends on it. `specs/Replay` takes each round from its text, `specs/Cut` has the clauses at each cut, and
// `specs/Verdict` what a verdict says. There is one verdict, and if no clause is broken, every round is fair and nobody falls.
// The checks are the standing of candidates, which seats a round's text gives, who seeks what, who applies to which programme,
// which answers and raises a replay takes, and whether final admissions are right.
// It calls nothing that judges requests for the office. It must never know how a round is made, whom a programme chooses, or in
// which texts papers are published.
#![tactic(auto)]

pub mod cut;
pub mod entries;
pub mod fault;
pub mod finals;
pub mod groups;
pub mod laws;
pub mod next;
pub mod raises;
pub mod sought;
pub mod stand;
pub mod told;
pub mod unlisted;
pub mod verdict;

pub use cut::cut_fault;
pub use fault::Fault;
pub use finals::are_final;
pub use next::stands_after;
pub use raises::lifts;
pub use sought::{place_of, seek_of};
pub use stand::Stand;
pub use told::seats_told;
pub use verdict::Verdict;
