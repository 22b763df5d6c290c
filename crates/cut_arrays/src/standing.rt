// The standing of a candidate, and the seat.
ghost use Rattle.std.specs.Prelude.{◌≡◌, ◌<◌, ◌≤◌, Some, length, option_copied, slice_get};
ghost use Rattle.std.specs.Option.{option_map};
ghost use Rattle.cut_arrays.specs.WindowEnd.{seats_given, seats_of, stands};

use answer_table::AnswerTable;
use office_base::Seat;
use round_options::{Standing, standing_of};
use rounds::Round;

/// Returns the standing of the candidate at this place, from how the last cut left the candidate and the answers of the
/// window. Allocates nothing.
pub(crate) fn stand(left: Standing, table: &AnswerTable, at: usize) -> Standing
    requires { at < length table.now }
    ensures { option_map (stands left) (slice_get table.now at) ≡ Some result }
{
    match table.last(at) {
        Some(choice) => standing_of(choice),
        None => left,
    }
}

/// The seat at this place, where seats are given. It takes no memory.
pub(crate) fn given_seat(seats: Option<&[Option<Seat>]>, at: usize, count: usize) -> Option<Seat>
    requires within { at < count }
    requires full { length (seats_given count (option_copied seats)) ≡ count }
    ensures { slice_get (seats_given count (option_copied seats.entry)) at ≡ Some result }
{
    match seats {
        Some(seats) => seats[at],
        None => None,
    }
}

/// The seat at this place of a round, where there is one. It takes no memory.
pub(crate) fn round_seat(round: Option<&Round>, at: usize, count: usize) -> Option<Seat>
    requires within { at < count }
    requires full { length (seats_of count (option_copied round)) ≡ count }
    ensures { slice_get (seats_of count (option_copied round.entry)) at ≡ Some result }
{
    match round {
        Some(round) => round.seats.as_slice()[at],
        None => None,
    }
}
