// The type of a round.
ghost use Rattle.std.specs.Prelude.{◌≡◌};
ghost use Rattle.rounds.specs.Round.{seated};

use office_base::{Listed, Seat};
use programme_lists::Programme;
use seeks::Seek;

/// What each person of the register seeks, in the order of the register.
pub type Seeks = Listed<Seek>;

/// The seat of each person of the register, in its order.
pub type Seats = Listed<Option<Seat>>;

/// The lists of each programme, one a step, in the order of the matrix.
pub type Programmes = Listed<Programme>;

/// A round. Its number counts from 1.
#[derive(Drop)]
pub struct Round {
    pub number: u16,
    pub seeks: Seeks,
    pub seats: Seats,
    pub programmes: Programmes,
}

impl Round {
    /// How many persons have a seat.
    pub fn seated(&self) -> usize
        ensures { result ≡ seated self.now.seats }
    {
        let mut count = 0;
        for seat in self.seats.as_slice() {
            if seat.is_some() {
                count += 1;
            }
        }
        count
    }
}
