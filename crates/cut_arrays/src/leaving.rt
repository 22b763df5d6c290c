// How a cut leaves the candidates.
ghost use Rattle.std.specs.Prelude.{◌≡◌, ◌<◌, ◌≤◌, ◌^◌, length, option_copied, if◌then◌else◌};
ghost use Rattle.office_moves.specs.Judge.{is_gone};
ghost use Rattle.cut_arrays.specs.WindowEnd.{after_cuts, seats_given, standings, still_in};

use crate::standing::{given_seat, stand};
use answer_table::AnswerTable;
use office_base::Seat;
use round_options::{Standing, after_cut};

/// Returns 0 if a candidate with this standing is out, otherwise 1.
fn counted(standing: Standing) -> u32
    ensures { result ≡ (if is_gone standing then 0 else 1) }
{
    match standing {
        Standing::Withdrawn | Standing::NoShow => 0,
        _ => 1,
    }
}

/// Leaves each candidate as the cut does, by the answers of the window and the seats of the new round; the last cut gives none. The result is how
/// many are not out. It takes no memory.
pub fn leave_all(left: &mut [Standing], table: &AnswerTable, seats: Option<&[Option<Seat>]>) -> u32
    requires few { length left.old < 2 ^ 32 }
    requires table { length table.now ≡ length left.old }
    requires seats { length (seats_given (length left.old) (option_copied seats))
        ≡ length left.old }
    ensures left { left.new ≡ after_cuts (standings left.old table.now)
        (seats_given (length left.old) (option_copied seats.entry)) }
    ensures still { result ≡ still_in left.new }
{
    let count = left.len();
    let mut still = 0;
    for at in 0..count {
        let seat = given_seat(seats, at, count);
        let standing = after_cut(stand(left[at], table, at), seat);
        left[at] = standing;
        still += counted(standing);
    }
    still
}
