// The seats and protections that final rows leave of a matrix.
ghost use Rattle.std.specs.Prelude.{◌≡◌, ◌<◌, IfOk, OnOk, false, length};
ghost use Rattle.office_base.specs.Merit.{CanBeRanked};
ghost use Rattle.office_base.specs.declared.step.StepKind.{StepKind};
ghost use Rattle.seat_matrix.specs.Matrix.{list_in};
ghost use Rattle.seat_matrix.specs.Seats.{is_dereserved};
ghost use Rattle.special_round.specs.Remaining.{AreFinals, IsRemaining};
ghost use Rattle.special_round.specs.Rows.{finals_of};
ghost use Rattle.special_round.specs.Set.{AreLeftIn, IsSetIn};

use crate::laws::{own_rows_rank, own_rows_say_all};
use crate::left::{seating_left, step_seats_left};
use crate::rows::{persons_of_step, rows_of_programme};
use kept_rows::AllotRow;
use office_base::{OWN_STEPS, OutOfMemory, ProgId, StepKind};
use rank_lists::Register;
use seat_matrix::Matrix;
use std::alloc::Global;

/// Gives a step of a programme what its rows leave of the table.
fn set_step(
    alloc: Global,
    register: &Register,
    rows: &[AllotRow],
    table: &Matrix,
    prog: ProgId,
    step: StepKind,
    left: &mut Matrix,
) -> Result<(), OutOfMemory>
    requires programme { prog.0 < length table.now.programmes }
    requires step { is_dereserved step ≡ false }
    requires people { CanBeRanked (list_in table.now prog.0)
        (finals_of register.now.people rows.now prog.0 step) }
    requires same { left.old.programmes ≡ table.now.programmes }
    ensures set { OnOk result
        (IsSetIn register.now.people rows.now table.now prog.0 step left.old left.new) }
{
    let seats = step_seats_left(table, rows, prog, step);
    let persons = persons_of_step(alloc, register, rows, prog, step)?;
    let old = table.programme(prog);
    let seating = seating_left(alloc, old.list, &old.of(step), persons.as_slice(), seats)?;
    left.set(prog, step, seating.seats, seating.protections);
    Ok(())
}

/// Gives each step of a programme what final rows leave of the table.
fn set_from(
    alloc: Global,
    register: &Register,
    finals: &[AllotRow],
    table: &Matrix,
    prog: ProgId,
    left: &mut Matrix,
) -> Result<(), OutOfMemory>
    requires programme { prog.0 < length table.now.programmes }
    requires finals { AreFinals register.now.people table.now finals.now }
    requires same { left.old.programmes ≡ table.now.programmes }
    ensures set { OnOk result
        (AreLeftIn register.now.people finals.now table.now prog.0 left.old left.new) }
{
    let _ = register.people();
    own_rows_rank();
    own_rows_say_all();
    let own = rows_of_programme(alloc, finals, prog)?;
    let rows = own.as_slice();
    for step in OWN_STEPS {
        set_step(alloc, register, rows, table, prog, step, left)?;
    }
    Ok(())
}

/// Returns what final rows leave of a matrix. Fails only when memory runs out.
pub(crate) fn remaining_matrix(
    alloc: Global,
    register: &Register,
    finals: &[AllotRow],
    table: &Matrix,
) -> Result<Matrix, OutOfMemory>
    requires { AreFinals register.now.people table.now finals.now }
    ensures { IfOk result (IsRemaining register.now.people finals.now table.now) }
{
    let mut left = table.copy(alloc)?;
    for number in 0..table.count() {
        set_from(alloc, register, finals, table, ProgId(number), &mut left)?;
    }
    Ok(left)
}
