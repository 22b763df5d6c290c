// How many seats are vacant.
ghost use Rattle.std.specs.Prelude.{◌≡◌, ◌-◌};
ghost use Rattle.office_moves.specs.Raised.{total_seats};

use office_moves::total_seats;
use seat_matrix::Matrix;

/// Returns how many seats of a matrix remain when `taken` are taken. Allocates nothing.
pub(crate) fn vacant_seats(matrix: &Matrix, taken: usize) -> u32
    ensures { result ≡ total_seats matrix.now - taken }
{
    (total_seats(matrix) as usize).saturating_sub(taken) as u32
}
