// What counted against a person, and the answers to why.
use office_base::{ProgId, SeatKind, StepKind};

/// Says what counted against a person at one step of a programme: its seats, and whether somebody worse in merit was
/// admitted there for a protection.
#[derive(Clone, Copy, PartialEq, Eq)]
pub struct StepWhy {
    pub kind: StepKind,
    pub seats: u32,
    pub worse: bool,
}

/// Says how a programme admits a person: under a step, or beyond its seats. Or it says what counted against the person. A refusal has an entry
/// exactly when the person competed for the seats of that step: the open ones, those of the candidate's own category,
/// and those that categories left unfilled.
#[derive(Clone, Copy, PartialEq, Eq)]
pub enum Reason {
    Admitted(SeatKind),
    Refused {
        at_open: Option<StepWhy>,
        at_category: Option<StepWhy>,
        at_dereserved: Option<StepWhy>,
    },
}

/// What the office answers to why a candidate has no seat in a programme, or has one: the reason, or the programme of the seat
/// that comes earlier on the choice list, or that the candidate did not seek the programme in that round.
#[derive(Clone, Copy, PartialEq, Eq)]
pub enum WhyAnswer {
    Reason(Reason),
    Better(ProgId),
    NotSought,
}
