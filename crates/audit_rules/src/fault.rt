// What is broken at a cut.
use list_audit::Clause;
use office_base::{CandId, ProgId};

/// The clause that a cut breaks first, with the programme and the candidate whom it names.
#[derive(Clone, Copy, Debug)]
pub struct Fault {
    pub clause: Clause,
    pub prog: Option<ProgId>,
    pub cand: Option<CandId>,
}
