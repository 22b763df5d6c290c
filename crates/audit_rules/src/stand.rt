// The standing of a candidate in the open window of a replay.
ghost use Rattle.std.specs.Prelude.{◌≡◌};
ghost use Rattle.audit_rules.specs.Stands.{after_answer, cut, first_stand, may_answer, notes};

use kept_rows::AnswerRow;
use office_asks::By;
use office_base::limits::MOST_TURNS;
use office_base::{Choice, Seat};
use round_options::{Standing, after_cut, allowed, standing_of};

/// What a replay keeps of a candidate: the standing that the last cut left, the last turn of the open window (0 if there is
/// none), the standing now, and the seat of the last round.
#[derive(Clone, Copy)]
pub struct Stand {
    pub left: Standing,
    pub last: u16,
    pub standing: Standing,
    pub seat: Option<Seat>,
}

/// Returns whether a candidate with this `Stand` may give this answer.
fn may_answer(stand: &Stand, row: AnswerRow) -> bool
    ensures { result ≡ may_answer stand.now row }
{
    let leaves = row.choice == Choice::Withdraw;
    !matches!(stand.standing, Standing::Withdrawn | Standing::NoShow)
        && (stand.seat.is_some() || leaves)
        && allowed(stand.left, row.choice)
        && (row.turn <= MOST_TURNS || leaves)
}

impl Stand {
    /// Without a seat, and waiting for one.
    pub fn first() -> Stand
        ensures { result ≡ first_stand }
    {
        Stand {
            left: Standing::Waiting,
            last: 0,
            standing: Standing::Waiting,
            seat: None,
        }
    }

    /// Whether an answer of the open window is noted. It takes no memory.
    pub fn notes(&self, by: By, row: AnswerRow) -> bool
        ensures { result ≡ notes self.now by row }
    {
        by == By::Candidate(row.cand)
            && row.turn > 0
            && row.turn - 1 == self.last
            && may_answer(self, row)
    }

    /// Returns the `Stand` of the candidate after an answer that is noted.
    pub fn answered(&self, row: AnswerRow) -> Stand
        ensures { result ≡ after_answer self.now row }
    {
        Stand {
            left: self.left,
            last: row.turn,
            standing: standing_of(row.choice),
            seat: self.seat,
        }
    }

    /// Returns the `Stand` of the candidate after a cut that gives this seat.
    pub fn cut(&self, seat: Option<Seat>) -> Stand
        ensures { result ≡ cut self.now seat }
    {
        let left = after_cut(self.standing, seat);
        Stand {
            left,
            last: 0,
            standing: left,
            seat,
        }
    }
}
