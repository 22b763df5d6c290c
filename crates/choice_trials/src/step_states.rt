// People who come to a step one at a time: worked offers.
ghost use Rattle.std.specs.Prelude.{◌≡◌};
ghost use Rattle.office_base.specs.Person.{IsList};
ghost use Rattle.office_base.specs.StepChoice.{IsStep};

use crate::candidates::{D, W, in_order, is_new, step_of};
use crate::is_step;
use merit_choice::{Offered, StepState};
use office_base::{CandId, OutOfMemory, Person, Step};
use std::alloc::Global;

// Offers the people to the step one after another, and returns whether it answers as expected.
fn answer_as_told(state: &mut StepState, step: &Step, people: &[Person], told: &[Offered]) -> bool
    requires list { IsList step.now.list }
    requires same { state.old.list ≡ step.now.list }
{
    let [person, later @ ..] = people else {
        return told.is_empty();
    };
    let [answer, answers @ ..] = told else {
        return false;
    };
    is_new(step.list, state.admitted(), person)
        && state.offer(person) == *answer
        && answer_as_told(state, step, later, answers)
}

// Returns whether the step answers as expected when its people come in the order of this number.
fn order_is_answered(
    alloc: Global,
    step: &Step,
    number: usize,
    told: &[Offered],
) -> Result<bool, OutOfMemory>
    requires { IsStep step.now }
{
    let order = in_order(alloc, step.people.as_slice(), number)?;
    let mut state = StepState::new(alloc, step.list, step.seats, step.protections)?;
    Ok(answer_as_told(&mut state, step, order.as_slice(), told))
}

// Returns whether a step of two seats answers as expected when its people come from the first to the last, and from
// the last to the first.
fn both_are_answered(alloc: Global) -> Result<bool, OutOfMemory> {
    let step = step_of(alloc, 2, [1, 1, 0], &[0, W + D, W, D])?;
    let first_to_last = [
        Offered::Taken,
        Offered::Taken,
        Offered::Displaced(CandId(1)),
        Offered::Refused,
    ];
    let last_to_first = [
        Offered::Taken,
        Offered::Taken,
        Offered::Displaced(CandId(4)),
        Offered::Refused,
    ];
    Ok(
        is_step(&step)
            && order_is_answered(alloc, &step, 23, &first_to_last)?
            && order_is_answered(alloc, &step, 0, &last_to_first)?,
    )
}

#[test]
fn worked_offers_to_a_step(rt: HostRuntime) {
    assert!(rt; both_are_answered(rt.alloc()) == Ok(true));
}
