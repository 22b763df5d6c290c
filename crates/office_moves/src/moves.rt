// What the office accepts, and what it replies.
ghost use Rattle.std.specs.Prelude.{◌≡◌};
ghost use Rattle.office_moves.specs.Moves.{noted, raised_reply};

use crate::refusal::Refusal;
use kept_rows::{AnswerRow, AnswerRows, RaiseRow};
use list_cutoffs::StepCutoff;
use office_base::{CandId, Choice, Listed, Person, ProgId, Seat, StepKind};
use programme_lists::Programme;
use reasons::WhyAnswer;
use round_options::Standing;

/// What was accepted.
#[derive(Clone, Copy, PartialEq, Eq)]
pub enum Act {
    /// An answer of its candidate.
    Answer(AnswerRow),
    /// More seats, given by the clerk.
    Raise(RaiseRow),
    /// The clerk's end of a window.
    Cut { window: u16 },
}

/// An accepted act. Numbers rise along a history, and the first is at least 1.
#[derive(Clone, Copy, PartialEq, Eq)]
pub struct Entry {
    pub number: u64,
    pub act: Act,
}

/// The reply to a request.
#[derive(Drop)]
pub enum Reply {
    /// The receipt of an answer.
    Noted {
        cand: CandId,
        window: u16,
        turn: u16,
        choice: Choice,
    },
    /// The receipt of a raise: the new number of seats of the step.
    Raised {
        window: u16,
        prog: ProgId,
        step: StepKind,
        seats: u16,
    },
    /// The receipt of a cut that published a round: its number from 1, and how many have a seat in it.
    Published {
        round: u16,
        seated: u32,
    },
    /// The receipt of the last cut: how many are admitted.
    Final {
        admitted: u32,
    },
    /// The standing of a candidate, with the seat of the last published round. The round is 0 if none is published.
    SeatIs {
        cand: CandId,
        round: u16,
        standing: Standing,
        seat: Option<Seat>,
    },
    /// Why a candidate has no seat of a programme in the last published round, or has one.
    WhyIs {
        cand: CandId,
        prog: ProgId,
        answer: WhyAnswer,
    },
    /// The lists of a programme in a round.
    ListIs {
        round: u16,
        prog: ProgId,
        programme: Programme,
    },
    /// What was published under a number: its text shows the round, or the final admissions.
    RoundIs {
        round: u16,
    },
    /// The choice list of a candidate, the most preferred programme first.
    ChoicesAre {
        cand: CandId,
        progs: Listed<ProgId>,
    },
    /// The cutoffs of a programme in a round: lines for each step, in the order of the lists.
    CutoffsAre {
        round: u16,
        prog: ProgId,
        lines: Listed<StepCutoff>,
    },
    /// What the register has of a candidate.
    RegisterIs {
        person: Person,
    },
    /// The accepted answers of a candidate, in the order of windows and turns.
    AnswersAre {
        cand: CandId,
        rows: AnswerRows,
    },
    /// The window that is open now, the rounds of the season, and how many of them are published. After the last cut the window is
    /// the number of rounds plus 1, and takes nothing.
    StateIs {
        now: u16,
        rounds: u16,
        published: u16,
    },
    /// The request is refused, and changes nothing.
    Refused(Refusal),
}

impl Reply {
    /// The receipt of an answer.
    pub fn of_answer(row: AnswerRow) -> Reply
        ensures { result ≡ noted row }
    {
        Reply::Noted {
            cand: row.cand,
            window: row.window,
            turn: row.turn,
            choice: row.choice,
        }
    }

    /// The receipt of a raise.
    pub fn of_raise(row: RaiseRow) -> Reply
        ensures { result ≡ raised_reply row }
    {
        Reply::Raised {
            window: row.window,
            prog: row.prog,
            step: row.step,
            seats: row.seats,
        }
    }
}
