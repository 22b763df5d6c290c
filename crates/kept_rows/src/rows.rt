// The rows of the tables.
use office_base::{CandId, Choice, Listed, ProgId, SeatKind, StepKind, Text};

/// An accepted answer of a candidate: in which window, at which turn of that window, from 1, and what.
#[derive(Clone, Copy, PartialEq, Eq)]
pub struct AnswerRow {
    pub window: u16,
    pub cand: CandId,
    pub turn: u16,
    pub choice: Choice,
}

/// An accepted raise: from the cut of this window on, the step of the programme has this many seats.
#[derive(Clone, Copy, PartialEq, Eq)]
pub struct RaiseRow {
    pub window: u16,
    pub prog: ProgId,
    pub step: StepKind,
    pub seats: u16,
}

/// A published seat. The final admissions have the number of rounds plus 1 as their round.
#[derive(Clone, Copy, PartialEq, Eq)]
pub struct AllotRow {
    pub round: u16,
    pub cand: CandId,
    pub prog: ProgId,
    pub step: SeatKind,
}

/// Answers, in the order in which they were accepted.
pub type AnswerRows = Listed<AnswerRow>;

/// Raises, in the order in which they were accepted.
pub type RaiseRows = Listed<RaiseRow>;

/// Published seats.
pub type AllotRows = Listed<AllotRow>;

/// All that is kept of a season. `season` is its bundle without the requests.
#[derive(Drop)]
pub struct Kept {
    pub season: Text,
    pub answers: AnswerRows,
    pub raises: RaiseRows,
    pub allots: AllotRows,
    pub cuts: u16,
}
