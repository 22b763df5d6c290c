// Why a request is refused.
ghost use Rattle.std.specs.Prelude.{◌≡◌};
ghost use Rattle.office_moves.specs.Refusals.{name_of, number_of};

use office_base::Choice;
use round_options::Standing;

/// Why a request is refused. The reply has the first that applies, in the order of the numbers.
/// Number 4 is no refusal. It is the receipt of a request that was accepted before.
#[derive(Clone, Copy, Debug, PartialEq, Eq)]
pub enum Refusal {
    /// The candidate is not in the register.
    UnknownCandidate,
    /// The code is not in the matrix.
    UnknownProgramme,
    /// Rule 1: an answer is given by its candidate alone. Rule 2: a cut is made by the clerk alone. Rule 3: seat and why are asked by the
    /// candidate or the clerk. Rule 4: a raise is made by the clerk alone.
    Denied { rule: u8 },
    /// The window and turn were accepted with another choice.
    TurnUsed { kept: Choice },
    /// The window is over: this one is open.
    Late { now: u16 },
    /// The window is not open yet, or there is none of this number: this one is open.
    Ahead { now: u16 },
    /// The turn is not one more than the last accepted one of this window, which is 0 where there is none.
    Gap { last: u16 },
    /// The candidate has withdrawn or is a no-show.
    Gone { how: Standing },
    /// The candidate has no seat in the last round and does not withdraw.
    NoSeat,
    /// The answer is wider than the standing that the last cut left.
    Widening { standing: Choice },
    /// The turn is above 16 and does not withdraw.
    TooManyTurns,
    /// The programme is not on the candidate's choice list.
    NotChosen,
    /// No such round is published.
    NoSuchRound { published: u16 },
    /// Seats are not raised in the last window.
    LastWindow,
    /// The step has no seats of its own.
    StepFixed,
    /// The step has at least so many seats already: these.
    Falling { seats: u16 },
    /// The step would have more than 4,000 seats, or the matrix more than 1,000,000: it has so many in all.
    SeatLimit { total: u32 },
}

impl Refusal {
    /// Its number, from 1 to 18; never 4.
    pub fn number(self) -> u8
        ensures { result ≡ number_of self }
    {
        match self {
            Refusal::UnknownCandidate => 1,
            Refusal::UnknownProgramme => 2,
            Refusal::Denied { rule: _ } => 3,
            Refusal::TurnUsed { kept: _ } => 5,
            Refusal::Late { now: _ } => 6,
            Refusal::Ahead { now: _ } => 7,
            Refusal::Gap { last: _ } => 8,
            Refusal::Gone { how: _ } => 9,
            Refusal::NoSeat => 10,
            Refusal::Widening { standing: _ } => 11,
            Refusal::TooManyTurns => 12,
            Refusal::NotChosen => 13,
            Refusal::NoSuchRound { published: _ } => 14,
            Refusal::LastWindow => 15,
            Refusal::StepFixed => 16,
            Refusal::Falling { seats: _ } => 17,
            Refusal::SeatLimit { total: _ } => 18,
        }
    }

    /// Its name.
    pub fn name(self) -> &'static str
        ensures { result.now ≡ name_of self }
    {
        match self {
            Refusal::UnknownCandidate => "UnknownCandidate",
            Refusal::UnknownProgramme => "UnknownProgramme",
            Refusal::Denied { rule: _ } => "Denied",
            Refusal::TurnUsed { kept: _ } => "TurnUsed",
            Refusal::Late { now: _ } => "Late",
            Refusal::Ahead { now: _ } => "Ahead",
            Refusal::Gap { last: _ } => "Gap",
            Refusal::Gone { how: _ } => "Gone",
            Refusal::NoSeat => "NoSeat",
            Refusal::Widening { standing: _ } => "Widening",
            Refusal::TooManyTurns => "TooManyTurns",
            Refusal::NotChosen => "NotChosen",
            Refusal::NoSuchRound { published: _ } => "NoSuchRound",
            Refusal::LastWindow => "LastWindow",
            Refusal::StepFixed => "StepFixed",
            Refusal::Falling { seats: _ } => "Falling",
            Refusal::SeatLimit { total: _ } => "SeatLimit",
        }
    }
}
