// The seats of a whole matrix.
ghost use Rattle.std.specs.Prelude.{◌≡◌, ◌≤◌};
ghost use Rattle.office_base.specs.Limits.{most_raised_seats};
ghost use Rattle.office_moves.specs.Raised.{seats_in_all, total_seats};

use office_base::{OWN_STEPS, ProgId};
use seat_matrix::{Matrix, Seatings};

/// Returns the seats of all steps of a programme.
fn seats_in_all(steps: &Seatings) -> u32
    ensures { result ≡ seats_in_all steps.now }
{
    let mut total = 0;
    for step in OWN_STEPS {
        total += u32::from(steps.of(step).seats);
    }
    total
}

/// Returns the seats of all steps of all programmes. It takes no memory.
pub fn total_seats(matrix: &Matrix) -> u32
    ensures total { result ≡ total_seats matrix.now }
    ensures most { result ≤ most_raised_seats }
{
    let mut total = 0;
    for number in 0..matrix.count() {
        total += seats_in_all(&matrix.programme(ProgId(number)).steps);
    }
    total
}
