// What the office is asked, and who asks.
use office_base::{CandId, Choice, Code, StepKind};

/// Who asks: the clerk, a candidate, or somebody unknown to the office.
#[derive(Clone, Copy, PartialEq, Eq)]
pub enum By {
    Clerk,
    Candidate(CandId),
    Nobody,
}

/// What is asked. Windows are numbered from 0 and rounds from 1;
/// a turn counts the answers of a candidate in a window, from 1.
/// A programme is named by its code, which may be the code of none.
#[derive(Clone, Copy, PartialEq, Eq)]
pub enum Ask {
    /// A candidate's answer in a window.
    Answer {
        cand: CandId,
        window: u16,
        turn: u16,
        choice: Choice,
    },
    /// The end of a window.
    Cut {
        window: u16,
    },
    /// The seat of a candidate.
    Seat {
        cand: CandId,
    },
    /// Why a candidate has no seat in a programme, or has one.
    Why {
        cand: CandId,
        prog: Code,
    },
    /// The list of a programme in a round.
    List {
        round: u16,
        prog: Code,
    },
    /// What was published under a number: the text of a round, or of the final admissions.
    Round {
        round: u16,
    },
    /// The choice list of a candidate.
    Choices {
        cand: CandId,
    },
    /// The cutoffs of a programme in a round: for each step the places at which it would admit one person more.
    Cutoffs {
        round: u16,
        prog: Code,
    },
    /// What the register has of a candidate.
    Register {
        cand: CandId,
    },
    /// The answers of a candidate that were accepted, in all windows.
    Answers {
        cand: CandId,
    },
    /// How far the office is.
    State,
    /// More seats for a step of a programme, from the cut of a window on: `seats` is their new number.
    Raise {
        window: u16,
        prog: Code,
        step: StepKind,
        seats: u16,
    },
}

/// Who asks what.
#[derive(Clone, Copy, PartialEq, Eq)]
pub struct Request {
    pub by: By,
    pub ask: Ask,
}
