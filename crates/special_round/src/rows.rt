// Final rows of a programme, and of its steps.
ghost use Rattle.std.specs.Prelude.{◌≡◌, ◌==◌, ◌&&◌, IfOk};
ghost use Rattle.std.specs.List.{filter};
ghost use Rattle.special_round.specs.Rows.{finals_of, is_row_in, is_row_of, rows_of_step};

use kept_rows::AllotRow;
use office_base::{OutOfMemory, Person, ProgId, StepKind, seat_kind_number, step_number};
use rank_lists::Register;
use std::alloc::Global;

/// The rows of one programme, in their order.
pub(crate) fn rows_of_programme(
    alloc: Global,
    rows: &[AllotRow],
    prog: ProgId,
) -> Result<Vec<AllotRow>, OutOfMemory>
    ensures { IfOk result (λ own. own.items ≡ filter (is_row_in prog.0) rows.now) }
{
    let mut own = Vec::new(alloc);
    for row in rows {
        if row.prog.0 == prog.0 {
            own.push(*row)?;
        }
    }
    Ok(own)
}

// Whether a row is one of the programme under the step.
fn is_of(row: &AllotRow, prog: ProgId, step: StepKind) -> bool
    ensures { result ≡ is_row_of prog.0 step row.now }
{
    row.prog.0 == prog.0 && seat_kind_number(row.step) == step_number(step)
}

/// How many of the rows are of the programme under the step.
pub(crate) fn count_of_step(rows: &[AllotRow], prog: ProgId, step: StepKind) -> usize
    ensures { result ≡ rows_of_step rows.now prog.0 step }
{
    let mut count = 0;
    for row in rows {
        if is_of(row, prog, step) {
            count += 1;
        }
    }
    count
}

/// The persons of the rows of the programme under the step, in the order of the rows.
pub(crate) fn persons_of_step(
    alloc: Global,
    register: &Register,
    rows: &[AllotRow],
    prog: ProgId,
    step: StepKind,
) -> Result<Vec<Person>, OutOfMemory>
    ensures { IfOk result (λ persons.
        persons.items ≡ finals_of register.now.people rows.now prog.0 step) }
{
    let mut persons = Vec::new(alloc);
    for row in rows {
        if is_of(row, prog, step)
            && let Some(person) = register.person(row.cand)
        {
            persons.push(*person)?;
        }
    }
    Ok(persons)
}
