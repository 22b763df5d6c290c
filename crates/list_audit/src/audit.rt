// The lists of a programme: the first clause that they break.
ghost use Rattle.std.specs.Prelude.{◌≡◌, ◌<◌, ◌≤◌, List, IfOk, length};
ghost use Rattle.std.specs.List.{filter};
ghost use Rattle.office_base.specs.CategorySteps.{category_steps};
ghost use Rattle.office_base.specs.Lists.{IsAmong, IsSublist};
ghost use Rattle.office_base.specs.Merit.{in_merit};
ghost use Rattle.office_base.specs.StepChoice.{AreRanked};
ghost use Rattle.office_base.specs.Version.{IsVersion};
ghost use Rattle.office_base.specs.declared.category_steps.CategoryStep.{CategoryStep as AnyRow};
ghost use Rattle.office_base.specs.declared.person.Person.{Person as AnyPerson};
ghost use Rattle.office_base.specs.declared.step.StepKind.{StepKind as AnyKind};
ghost use Rattle.office_base.specs.declared.step.StepKind.TheVariants.{Open as OpenStep, Dereserved as DereservedStep};
ghost use Rattle.placements.specs.Ranks.{AreDistinct};
ghost use Rattle.seat_matrix.specs.Matrix.{list_in, seats_in};
ghost use Rattle.seat_matrix.specs.Seats.{AreProgrammeSeats};
ghost use Rattle.programme_lists.specs.Chosen.{AreApplicants};
ghost use Rattle.programme_lists.specs.Programme.{is_of, without};
ghost use Rattle.list_audit.specs.Clauses.{IsListFault, audited, list_of_step, named_by};
ghost use Rattle.list_audit.specs.Steps.{IsCategoryFault, IsStepFault};

use crate::clause::ListFault;
use crate::numbers::list_of;
use crate::stand::{left_over, without};
use crate::steps::step_fault;
use merit_choice::in_merit_order;
use merit_choice::laws::{ranked_in_merit, ranked_part};
use office_base::{CATEGORY_STEPS, OutOfMemory, Person, ProgId, StepKind};
use programme_lists::Programme;
use seat_matrix::{Matrix, ProgrammeSeats};
use std::alloc::Global;

/// The first clause that the step of a category breaks, from those whom the open step left.
fn category_fault(
    alloc: Global,
    version: u8,
    seats: &ProgrammeSeats,
    programme: &Programme,
    rest: &[Person],
) -> Result<Option<ListFault>, OutOfMemory>
    requires seats { AreProgrammeSeats seats.now }
    requires ranked { AreRanked seats.now.list rest.now }
    requires once { (kind : AnyKind) → AreDistinct (list_of_step programme.now kind).admitted }
    ensures { IfOk result (λ fault. (applicants : List AnyPerson)
        → rest.now ≡ without (in_merit seats.now.list applicants) (named_by programme.now OpenStep)
        → IsCategoryFault version seats.now applicants programme.now fault) }
{
    for row in CATEGORY_STEPS {
        if let Some(fault) = step_fault(alloc, version, seats, programme, row.step, rest)? {
            return Ok(Some(fault));
        }
    }
    Ok(None)
}

/// The first clause that the last step breaks, from those whom the open step left. The persons of each category are members among these.
fn last_fault(
    alloc: Global,
    version: u8,
    seats: &ProgrammeSeats,
    programme: &Programme,
    rest: &[Person],
) -> Result<Option<ListFault>, OutOfMemory>
    requires seats { AreProgrammeSeats seats.now }
    requires ranked { AreRanked seats.now.list rest.now }
    requires once { AreDistinct (list_of_step programme.now DereservedStep).admitted }
    requires members { (row : AnyRow) → IsAmong row category_steps
        → IsSublist (named_by programme.now row.step) (filter (is_of row.category) rest.now) }
    ensures { IfOk result (λ fault. (applicants : List AnyPerson)
        → rest.now ≡ without (in_merit seats.now.list applicants) (named_by programme.now OpenStep)
        → IsStepFault (audited version seats.now applicants programme.now DereservedStep) fault) }
{
    let left = left_over(alloc, rest, programme)?;
    step_fault(
        alloc,
        version,
        seats,
        programme,
        StepKind::Dereserved,
        left.as_slice(),
    )
}

/// Returns the first clause that the lists break, from applicants in merit order.
fn fault_in_order(
    alloc: Global,
    version: u8,
    seats: &ProgrammeSeats,
    programme: &Programme,
    ranked: &[Person],
) -> Result<Option<ListFault>, OutOfMemory>
    requires seats { AreProgrammeSeats seats.now }
    requires ranked { AreRanked seats.now.list ranked.now }
    requires once { (kind : AnyKind) → AreDistinct (list_of_step programme.now kind).admitted }
    ensures { IfOk result (λ fault. (applicants : List AnyPerson) → ranked.now ≡ in_merit
        seats.now.list applicants → IsListFault version seats.now applicants programme.now fault) }
{
    ranked_in_merit();
    ranked_part();
    if let Some(fault) = step_fault(alloc, version, seats, programme, StepKind::Open, ranked)? {
        return Ok(Some(fault));
    }
    let first = list_of(programme, StepKind::Open);
    let rest = without(alloc, ranked, first.admitted.as_slice())?;
    if let Some(fault) = category_fault(alloc, version, seats, programme, rest.as_slice())? {
        return Ok(Some(fault));
    }
    last_fault(alloc, version, seats, programme, rest.as_slice())
}

/// Returns the first clause that the lists of a programme break, from its applicants in any order, or `None` exactly
/// when they break no clause. The steps come in their order. In each come the numbers, the people, the size, the
/// certificate, and that nobody is overtaken. The candidate is the one whom the clause names: the first who is no
/// person of the step or is out of order, or the best who overtakes somebody. The version is that of the bundle.
/// Fails only when memory runs out.
pub fn list_fault(
    alloc: Global,
    matrix: &Matrix,
    version: u8,
    prog: ProgId,
    applicants: &[Person],
    programme: &Programme,
) -> Result<Option<ListFault>, OutOfMemory>
    requires programme { prog.0 < length matrix.now.programmes }
    requires version { IsVersion version }
    requires applicants { AreApplicants (list_in matrix.now prog.0) applicants.now }
    requires once { (kind : AnyKind) → AreDistinct (list_of_step programme.now kind).admitted }
    ensures { IfOk result (λ fault.
        IsListFault version (seats_in matrix.now prog.0) applicants.now programme.now fault) }
{
    let seats = matrix.programme(prog);
    let ranked = in_merit_order(alloc, applicants, seats.list)?;
    fault_in_order(alloc, version, &seats, programme, &ranked)
}
