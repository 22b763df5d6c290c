// The standing of a candidate in the rounds.
ghost use Rattle.std.specs.Prelude.{◌≡◌, true, IsSome};
ghost use Rattle.round_options.specs.Options.{after_cut, holds, may_follow, seek_after, standing_of};

use office_base::{Choice, Seat};
use seeks::Seek;

/// The standing of a candidate.
#[derive(Clone, Copy, Debug, PartialEq, Eq)]
pub enum Standing {
    /// Without a seat, and waiting for one.
    Waiting,
    /// With a first seat that is not answered yet.
    Offered,
    /// With a seat that is kept.
    Freeze,
    /// With a seat, unless a programme earlier on the choice list admits the candidate.
    Float,
    /// The same within the institute of the seat.
    Slide,
    /// Left.
    Withdrawn,
    /// Out, since a first seat was not answered.
    NoShow,
}

impl Standing {
    /// Whether the candidate keeps a seat in the next round.
    pub fn holds(self) -> bool
        ensures { result ≡ holds self }
    {
        matches!(self, Standing::Freeze | Standing::Float | Standing::Slide)
    }
}

/// Returns the standing of a candidate after an answer.
pub fn standing_of(choice: Choice) -> Standing
    ensures { result ≡ standing_of choice }
{
    match choice {
        Choice::Freeze => Standing::Freeze,
        Choice::Float => Standing::Float,
        Choice::Slide => Standing::Slide,
        Choice::Withdraw => Standing::Withdrawn,
    }
}

/// Whether a candidate who was left so by the last cut may answer so. Answers only narrow from window to window; who has a
/// first seat may answer anything, and who has none may only withdraw. It takes no memory.
pub fn allowed(standing: Standing, new: Choice) -> bool
    ensures { result ≡ may_follow standing new }
{
    match standing {
        Standing::Waiting => new == Choice::Withdraw,
        Standing::Offered | Standing::Float => true,
        Standing::Slide => new != Choice::Float,
        Standing::Freeze => new == Choice::Freeze || new == Choice::Withdraw,
        Standing::Withdrawn | Standing::NoShow => false,
    }
}

/// Returns what a candidate with this standing at a cut seeks in the next round.
/// The place is that of the candidate's seat in the choice list. Allocates nothing.
pub fn next_seek(standing: Standing, place: Option<u16>) -> Seek
    requires { holds standing ≡ true → IsSome place }
    ensures { result ≡ seek_after standing place }
{
    match (standing, place) {
        (Standing::Waiting, _) => Seek::Whole,
        (Standing::Freeze, Some(seat)) => Seek::Only(seat),
        (Standing::Float, Some(seat)) => Seek::UpTo(seat),
        (Standing::Slide, Some(seat)) => Seek::Within(seat),
        _ => Seek::Nothing,
    }
}

/// Returns the standing after a cut of a candidate with this standing at the cut, by the seat that the new round gives.
/// Allocates nothing.
pub fn after_cut(standing: Standing, seat: Option<Seat>) -> Standing
    ensures { result ≡ after_cut standing seat }
{
    match (standing, seat) {
        (Standing::Offered, _) => Standing::NoShow,
        (Standing::Waiting, Some(_)) => Standing::Offered,
        _ => standing,
    }
}
