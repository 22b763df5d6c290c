// The choice of a programme, step by step.
ghost use Rattle.std.specs.Prelude.{◌≡◌, ◌≤◌, ◌<◌, ◌++◌, [], ◌∷◌, IfOk, length, take};
ghost use Rattle.std.specs.List.{filter};
ghost use Rattle.office_base.specs.CategorySteps.{category_steps};
ghost use Rattle.office_base.specs.Person.{IsList, is_common};
ghost use Rattle.office_base.specs.StepChoice.{AreRanked, IsStep, IsStepChoice};
ghost use Rattle.office_base.specs.Version.{IsVersion};
ghost use Rattle.office_base.specs.declared.step.StepKind.TheVariants.{Open as OpenStep, Dereserved as DereservedStep};
ghost use Rattle.seat_matrix.specs.Matrix.{list_in, seats_in};
ghost use Rattle.seat_matrix.specs.Seats.{AreProgrammeSeats, no_protections, seats_of};
ghost use Rattle.programme_lists.specs.Chosen.{AreApplicants, ShowsFrom};
ghost use Rattle.programme_lists.specs.Listing.{Shows, ShowsChoice};
ghost use Rattle.programme_lists.specs.Programme.{step_with, without};
ghost use Rattle.open_then_category.specs.Stepwise.{AreCategorySteps, AreWithin, IsCategoryStep, ShowsLast, empty_after};

use crate::filters::{left_over, members, without};
use dereserve::{commons, fill, left_unfilled};
use merit_choice::{choose, in_merit_order};
use office_base::{
    CATEGORY_STEPS, CategoryStep, ListId, OWN_COUNT, OutOfMemory, People, Person, ProgId,
    Protections, STEP_COUNT, Step, StepKind,
};
use programme_lists::{Programme, StepList};
use seat_matrix::{Matrix, ProgrammeSeats, Seating};
use slot_cert::{Cert, canonical_pairs};
use std::alloc::Global;

/// The list of a step with these people.
fn step_list(
    alloc: Global,
    kind: StepKind,
    list: ListId,
    seats: &Seating,
    people: People,
) -> Result<StepList, OutOfMemory>
    requires step { IsStep (step_with list seats.now people) }
    requires few { length people ≤ 4294967295 }
    ensures choice { IfOk result (λ shown.
        IsStepChoice (step_with list seats.now people) shown.admitted) }
    ensures shows { IfOk result (λ shown.
        Shows kind seats.now.seats seats.now.protections people shown.admitted shown) }
{
    let step = Step {
        list,
        seats: seats.seats,
        protections: seats.protections,
        people,
    };
    let chosen = choose(alloc, &step)?;
    Ok(StepList {
        kind,
        seats: u32::from(step.seats),
        candidates: step.people.len() as u32,
        admitted: chosen.admitted,
        cert: chosen.cert,
    })
}

/// The open step: its people are those with a common place.
fn open_step(
    alloc: Global,
    seats: &ProgrammeSeats,
    applicants: &[Person],
) -> Result<StepList, OutOfMemory>
    requires seats { AreProgrammeSeats seats.now }
    requires ranked { AreRanked seats.now.list applicants.now }
    requires few { length applicants.now ≤ 4294967295 }
    ensures choice { IfOk result (λ shown. IsStepChoice (step_with seats.now.list (seats_of
        seats.now OpenStep) (filter (is_common seats.now.list) applicants.now)) shown.admitted) }
    ensures shows { IfOk result (λ shown.
        Shows OpenStep (seats_of seats.now OpenStep).seats (seats_of seats.now OpenStep).protections
        (filter (is_common seats.now.list) applicants.now) shown.admitted shown) }
{
    let step_seats = seats.of(StepKind::Open);
    let people = commons(alloc, applicants, seats.list)?;
    step_list(alloc, StepKind::Open, seats.list, &step_seats, people)
}

/// The step of a category: its people are the members whom the open step left.
fn category_step(
    alloc: Global,
    row: CategoryStep,
    seats: &ProgrammeSeats,
    rest: &[Person],
) -> Result<StepList, OutOfMemory>
    requires seats { AreProgrammeSeats seats.now }
    requires ranked { AreRanked seats.now.list rest.now }
    requires few { length rest.now ≤ 4294967295 }
    ensures { IfOk result (IsCategoryStep seats.now rest.now row) }
{
    let step_seats = seats.of(row.step);
    let people = members(alloc, rest, row.category)?;
    step_list(alloc, row.step, seats.list, &step_seats, people)
}

/// The step of de-reserved seats, from those whom the other steps left.
fn dereserved_step(
    alloc: Global,
    list: ListId,
    seats: u32,
    left: &[Person],
) -> Result<StepList, OutOfMemory>
    requires list { IsList list }
    requires ranked { AreRanked list left.now }
    requires few { length left.now ≤ 4294967295 }
    ensures { IfOk result (λ shown. Shows DereservedStep seats no_protections
        (filter (is_common list) left.now) (take seats (filter (is_common list) left.now)) shown) }
{
    let people = commons(alloc, left, list)?;
    let admitted = fill(alloc, left, list, seats)?;
    let none = Protections { counts: [0; 6] };
    let pairs = canonical_pairs(alloc, admitted.as_slice(), &none)?;
    Ok(StepList {
        kind: StepKind::Dereserved,
        seats,
        candidates: people.len() as u32,
        admitted,
        cert: Cert { pairs },
    })
}

/// The steps of the categories, in the order of their rows.
fn category_steps(
    alloc: Global,
    seats: &ProgrammeSeats,
    rest: &[Person],
) -> Result<Vec<StepList>, OutOfMemory>
    requires seats { AreProgrammeSeats seats.now }
    requires ranked { AreRanked seats.now.list rest.now }
    requires few { length rest.now ≤ 4294967295 }
    ensures { IfOk result (λ lists. AreCategorySteps seats.now rest.now lists.items) }
{
    // with room for the lists of the other steps
    let mut lists = Vec::with_capacity(alloc, STEP_COUNT)?;
    for row in CATEGORY_STEPS {
        let list = category_step(alloc, row, seats, rest)?;
        lists.push(list)?;
    }
    Ok(lists)
}

/// How many seats the categories leave to the de-reserved step.
fn empty_seats(version: u8, seats: &ProgrammeSeats, first: &StepList, lists: &[StepList]) -> u32
    requires version { IsVersion version }
    requires seats { AreProgrammeSeats seats.now }
    requires first { length first.now.admitted ≤ (seats_of seats.now OpenStep).seats }
    requires lists { AreWithin seats.now lists.now }
    ensures { result ≡ empty_after version seats.now (first.now ∷ lists.now) }
{
    let mut held = [first.admitted.len() as u16; OWN_COUNT];
    for i in 0..lists.len() {
        held[i + 1] = lists[i].admitted.len() as u16;
    }
    left_unfilled(version, &seats.steps, &held)
}

/// The step of de-reserved seats, from those of the rest whom the categories left.
fn last_step(
    alloc: Global,
    version: u8,
    seats: &ProgrammeSeats,
    rest: &[Person],
    first: &StepList,
    lists: &[StepList],
) -> Result<StepList, OutOfMemory>
    requires version { IsVersion version }
    requires seats { AreProgrammeSeats seats.now }
    requires ranked { AreRanked seats.now.list rest.now }
    requires few { length rest.now ≤ 4294967295 }
    requires first { length first.now.admitted ≤ (seats_of seats.now OpenStep).seats }
    requires lists { AreCategorySteps seats.now rest.now lists.now }
    ensures { IfOk result (ShowsLast version seats.now rest.now first.now lists.now) }
{
    let left = left_over(alloc, rest, lists)?;
    let empty = empty_seats(version, seats, first, lists);
    dereserved_step(alloc, seats.list, empty, left.as_slice())
}

/// The lists of a programme, in the order of the steps.
pub(crate) fn programme_of(
    first: StepList,
    mut lists: Vec<StepList>,
    last: StepList,
) -> Result<Programme, OutOfMemory>
    requires { length lists.items ≡ length category_steps }
    ensures { IfOk result (λ programme. programme.steps ≡ first ∷ lists.items ++ last ∷ []) }
{
    lists.insert(0, first)?;
    lists.push(last)?;
    match <[StepList; STEP_COUNT]>::try_from(lists) {
        Ok(steps) => Ok(Programme { steps }),
        Err(_) => unreachable!("each step has a list"),
    }
}

/// Returns the choice of a programme from applicants in merit order, the best first. Walks through the people of each
/// step a few times, from the first to the last, in addition to the step's choice and certificate.
fn choose_in_order(
    alloc: Global,
    version: u8,
    seats: &ProgrammeSeats,
    applicants: &[Person],
) -> Result<Programme, OutOfMemory>
    requires version { IsVersion version }
    requires seats { AreProgrammeSeats seats.now }
    requires ranked { AreRanked seats.now.list applicants.now }
    requires few { length applicants.now ≤ 4294967295 }
    ensures { IfOk result (λ programme. ShowsChoice version seats.now applicants.now programme) }
{
    let first = open_step(alloc, seats, applicants)?;
    let rest = without(alloc, applicants, first.admitted.as_slice())?;
    let rest = rest.as_slice();
    let lists = category_steps(alloc, seats, rest)?;
    let last = last_step(alloc, version, seats, rest, &first, lists.as_slice())?;
    programme_of(first, lists, last)
}

/// The choice of a programme from applicants in any order, who are distinct and have distinct places in its list: open
/// seats to those with a common place, then the seats of each category to its members whom the open step left, then as
/// many seats as OBC left unfilled, and in version 2 of the bundle EWS too, to the best with a common place whom no earlier
/// step took. The lists are those of the applicants by merit, whatever order they come in. It sorts them once.
pub fn programme_choice(
    alloc: Global,
    matrix: &Matrix,
    version: u8,
    prog: ProgId,
    applicants: &[Person],
) -> Result<Programme, OutOfMemory>
    requires programme { prog.0 < length matrix.now.programmes }
    requires version { IsVersion version }
    requires applicants { AreApplicants (list_in matrix.now prog.0) applicants.now }
    ensures { IfOk result (λ programme.
        ShowsFrom version (seats_in matrix.now prog.0) applicants.now programme) }
{
    // no memory holds so many persons
    if applicants.len() > u32::MAX as usize {
        return Err(OutOfMemory);
    }
    let seats = matrix.programme(prog);
    let ranked = in_merit_order(alloc, applicants, seats.list)?;
    choose_in_order(alloc, version, &seats, &ranked)
}
