// The verdict on a season's papers.
use list_audit::Clause;
use office_base::{CandId, ProgId};

/// What an audit comes to.
#[derive(Clone, Copy, PartialEq, Eq)]
pub enum Verdict {
    /// No clause is broken. So many rounds are published, at most 10.
    Sound {
        rounds: u16,
    },
    /// The first clause that is broken, in the round of this number, from 1; the final admissions are those of the number after the last round. It
    /// names a programme, a candidate, both or none.
    Broken {
        round: u16,
        clause: Clause,
        prog: Option<ProgId>,
        cand: Option<CandId>,
    },
}
