// How many seats categories left empty.
ghost use Rattle.std.specs.Prelude.{◌≡◌, ◌<◌, length};
ghost use Rattle.office_base.specs.Version.{IsVersion};
ghost use Rattle.seat_matrix.specs.Matrix.{seating_in};
ghost use Rattle.seat_matrix.specs.Seats.{of_step};
ghost use Rattle.seat_matrix.specs.Unfilled.{left_unfilled};
ghost use Rattle.dereserve.specs.Unfilled.{AreHeld, held_at};

use office_base::{CATEGORY_STEPS, OWN_COUNT, ProgId, gives_up, step_number};
use seat_matrix::{Matrix, Seatings};

/// Returns how many seats are left to the de-reserved step, at most 8,000. `held` has the numbers of persons whom the steps
/// with seats of their own admitted, by the number of the step, each at most the seats of its step.
pub fn left_unfilled(version: u8, seats: &Seatings, held: &[u16; OWN_COUNT]) -> u32
    requires version { IsVersion version }
    requires held { AreHeld (λ step. (of_step seats.now step).seats) held.now }
    ensures { result ≡ left_unfilled version (λ step. (of_step seats.now step).seats)
        (held_at held.now) }
{
    let mut empty = 0;
    for row in CATEGORY_STEPS {
        if gives_up(row, version) {
            let held = held[usize::from(step_number(row.step))];
            empty += u32::from(seats.of(row.step).seats - held);
        }
    }
    empty
}

/// Returns how many seats of a programme are left to the de-reserved step, at most 8,000. `held` has the numbers of persons
/// whom the steps with seats of their own admitted, by the number of the step, each at most the seats of its step. The
/// version is that of the bundle: `CATEGORY_STEPS` says which categories give their empty seats away in it.
pub fn unfilled(matrix: &Matrix, prog: ProgId, version: u8, held: &[u16; OWN_COUNT]) -> u32
    requires programme { prog.0 < length matrix.now.programmes }
    requires version { IsVersion version }
    requires held { AreHeld (λ step. (seating_in matrix.now prog.0 step).seats) held.now }
    ensures { result ≡ left_unfilled version (λ step. (seating_in matrix.now prog.0 step).seats)
        (held_at held.now) }
{
    left_unfilled(version, &matrix.programme(prog).steps, held)
}
