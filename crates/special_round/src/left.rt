// What final rows leave of the seats and protections of a step.
ghost use Rattle.std.specs.Prelude.{◌≡◌, ◌≤◌, ◌<◌, IfOk, length, sum};
ghost use Rattle.office_base.specs.CategorySteps.{row_of};
ghost use Rattle.office_base.specs.Merit.{CanBeRanked};
ghost use Rattle.office_base.specs.Person.{IsList};
ghost use Rattle.office_base.specs.Placement.{placed_on};
ghost use Rattle.office_base.specs.declared.step.StepKind.TheVariants.{Dereserved};
ghost use Rattle.seat_matrix.specs.Matrix.{seating_in};
ghost use Rattle.special_round.specs.Remaining.{IsLeft, left_behind, may_be_taken, own_left, protections_left, seats_left, taken_from};
ghost use Rattle.special_round.specs.Rows.{rows_of_step};

use crate::laws::left_is_within;
use crate::rows::count_of_step;
use kept_rows::AllotRow;
use merit_choice::in_merit_order;
use office_base::{
    CATEGORY_STEPS, CategoryStep, GivesUp, ListId, OutOfMemory, Pair, Person, ProgId, Protections,
    StepKind, step_number,
};
use seat_matrix::{Matrix, Seating};
use slot_cert::canonical_pairs;
use std::alloc::Global;

// The seats of a step without those of its own rows.
fn own_seats_left(matrix: &Matrix, rows: &[AllotRow], prog: ProgId, step: StepKind) -> u16
    requires { prog.0 < length matrix.now.programmes }
    ensures left { result ≡ own_left matrix.now rows.now prog.0 step }
{
    usize::from(matrix.seats(prog, step)).saturating_sub(count_of_step(rows, prog, step)) as u16
}

/// Returns whether in some version of the bundle the empty seats of the category go to the de-reserved step.
fn may_be_taken(row: CategoryStep) -> bool
    ensures { result ≡ may_be_taken row }
{
    match row.gives_up {
        GivesUp::Never => false,
        GivesUp::InVersion(_) | GivesUp::Always => true,
    }
}

/// Returns the seats that the categories behind a step in the table have left of their own, of those whose seats may be taken.
fn left_behind(matrix: &Matrix, rows: &[AllotRow], prog: ProgId, step: StepKind) -> usize
    requires { prog.0 < length matrix.now.programmes }
    ensures { result ≡ left_behind (own_left matrix.now rows.now prog.0) step }
{
    let mut left = 0;
    for row in CATEGORY_STEPS {
        if !may_be_taken(row) {
            continue;
        }
        if step_number(row.step) <= step_number(step) {
            continue;
        }
        left += usize::from(own_seats_left(matrix, rows, prog, row.step));
    }
    left
}

/// Returns how many rows of the de-reserved step take a seat of a step, as far as there is one.
fn taken_from(matrix: &Matrix, rows: &[AllotRow], prog: ProgId, step: StepKind) -> usize
    requires { prog.0 < length matrix.now.programmes }
    ensures { result ≡ taken_from (own_left matrix.now rows.now prog.0)
        (rows_of_step rows.now prog.0 Dereserved) (row_of step) }
{
    let Some(row) = row_of(step) else {
        return 0;
    };
    if !may_be_taken(row) {
        return 0;
    }
    let dereserved = count_of_step(rows, prog, StepKind::Dereserved);
    dereserved.saturating_sub(left_behind(matrix, rows, prog, row.step))
}

/// Returns the row of a step in the table, if it is the step of a category.
fn row_of(step: StepKind) -> Option<CategoryStep>
    ensures { result ≡ row_of step }
{
    for row in CATEGORY_STEPS {
        if step_number(step) == step_number(row.step) {
            return Some(row);
        }
    }
    None
}

/// The seats that final rows leave to a step of a programme, no more than it had: those of its own rows are taken off, and
/// then those that rows of the de-reserved step take.
pub(crate) fn step_seats_left(
    matrix: &Matrix,
    rows: &[AllotRow],
    prog: ProgId,
    step: StepKind,
) -> u16
    requires { prog.0 < length matrix.now.programmes }
    ensures left { result ≡ seats_left matrix.now rows.now prog.0 step }
    ensures most { result ≤ (seating_in matrix.now prog.0 step).seats }
{
    let own = usize::from(own_seats_left(matrix, rows, prog, step));
    own.saturating_sub(taken_from(matrix, rows, prog, step)) as u16
}

// How many of the pairs stand on positions of a trait.
fn count_on(pairs: &[Pair], t: u8) -> usize
    ensures { result ≡ placed_on t pairs.now }
{
    let mut count = 0;
    for pair in pairs {
        if pair.slot == t {
            count += 1;
        }
    }
    count
}

/// Returns what pairs leave of protections, as far as there are seats. It goes trait by trait.
/// Each trait has at most the seats that the traits before it do not have.
pub(crate) fn what_is_left(old: &Protections, pairs: &[Pair], seats: usize) -> Protections
    ensures { result.counts ≡ protections_left 0 old.now.counts pairs.now seats }
{
    let mut counts = [0; 6];
    let mut room = seats;
    for t in 0..6u8 {
        let count = usize::from(old.counts[usize::from(t)]);
        let left = count.saturating_sub(count_on(pairs, t)).min(room) as u16;
        counts[usize::from(t)] = left;
        room -= usize::from(left);
    }
    Protections { counts }
}

/// Returns the seats and protections that remain of a step. It needs the old ones, the persons of the step's final rows,
/// and the number of seats that remain. Fails only when memory runs out.
pub(crate) fn seating_left(
    alloc: Global,
    list: ListId,
    old: &Seating,
    persons: &[Person],
    seats: u16,
) -> Result<Seating, OutOfMemory>
    requires list { IsList list }
    requires people { CanBeRanked list persons.now }
    ensures left { IfOk result (IsLeft list old.now persons.now seats) }
    ensures within { IfOk result (λ left. (left.seats ≡ seats)
        × (sum left.protections.counts ≤ seats)) }
{
    left_is_within();
    let ranked = in_merit_order(alloc, persons, list)?;
    let pairs = canonical_pairs(alloc, ranked.as_slice(), &old.protections)?;
    Ok(Seating {
        seats,
        protections: what_is_left(&old.protections, pairs.as_slice(), usize::from(seats)),
    })
}
