// The audit of a season from its published papers.
//
// The command of the court depends on it. `audit` replays the answers, raises and cuts of a script and takes each round from its
// text. A verdict says that no clause is broken, or which one is first. `Auditor` is the replay, which `best_audit` also runs.
// It must never know how a round is made, whom a programme chooses, or how a request is handled: of what the office runs, it calls
// only the bookkeeping of raises. Nor does it know how a dossier or a verdict is written.
#![tactic(auto)]

pub mod auditor;
pub mod texts;
pub mod whole;

pub use audit_rules::Verdict;
pub use auditor::Auditor;
pub use texts::rows_after;
pub use whole::audit;
