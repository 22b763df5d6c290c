// Seats that OBC left empty, and who fills them.
ghost use Rattle.office_base.specs.StepChoice.{IsStep};

use crate::candidates::{applicant, are_people, candidates_of, matrix_of, step_without_seats};
use crate::is_step;
use dereserve::{commons, fill, unfilled};
use office_base::{Category, ListId, OutOfMemory, ProgId, Step, StepKind};
use seat_matrix::Matrix;
use std::alloc::Global;

// Whether OBC leaves two of its three seats empty.
fn two_stay_empty(matrix: &Matrix) -> bool {
    let prog = ProgId(0);
    matrix.count() == 1
        && matrix.seats(prog, StepKind::Obc) >= 1
        && unfilled(matrix, prog, 1, &[0, 0, 1, 0, 0]) == 2
}

fn are_counted(alloc: Global) -> Result<bool, OutOfMemory> {
    match matrix_of(alloc, "A,I1,2,OBC,3\nA,I1,2,SC,7\n")? {
        Some(matrix) => Ok(two_stay_empty(&matrix)),
        None => Ok(false),
    }
}

// Whether so many seats are filled by the people with these numbers.
fn are_filled_by(alloc: Global, step: &Step, seats: u32, told: &[u32]) -> Result<bool, OutOfMemory>
    requires { IsStep step.now }
{
    let filled = fill(alloc, step.people.as_slice(), step.list, seats)?;
    Ok(are_people(filled.as_slice(), told))
}

// Whether those of the step with a common place fill its seats.
fn commons_fill(alloc: Global, step: &Step) -> Result<bool, OutOfMemory> {
    if !is_step(step) {
        return Ok(false);
    }
    let all = commons(alloc, step.people.as_slice(), step.list)?;
    Ok(
        are_people(all.as_slice(), &[2, 4, 5])
            && are_filled_by(alloc, step, 2, &[2, 4])?
            && are_filled_by(alloc, step, 9, &[2, 4, 5])?,
    )
}

fn are_filled(alloc: Global) -> Result<bool, OutOfMemory> {
    let kinds = [
        applicant(Category::Sc, 0, false),
        applicant(Category::Obc, 0, true),
        applicant(Category::St, 0, false),
        applicant(Category::Gen, 0, true),
        applicant(Category::Sc, 0, true),
    ];
    let step = step_without_seats(ListId(1), candidates_of(alloc, &kinds)?);
    commons_fill(alloc, &step)
}

#[test]
fn empty_obc_seats_are_counted(rt: HostRuntime) {
    assert!(rt; are_counted(rt.alloc()) == Ok(true));
}

#[test]
fn the_best_with_a_common_place_fill_seats(rt: HostRuntime) {
    assert!(rt; are_filled(rt.alloc()) == Ok(true));
}
