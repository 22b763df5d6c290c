// The choice of a step, by trying all sets of its people.
ghost use Rattle.std.specs.Prelude.{◌≡◌, ◌↔◌, IsTrue, IfOk, MatchOption, All};
ghost use Rattle.office_base.specs.Lists.{IsSublist};
ghost use Rattle.office_base.specs.Person.{IsList};
ghost use Rattle.office_base.specs.StepChoice.{IsStep, IsNoWorse, IsStepChoice, MayAdmit};
ghost use Rattle.choice_trials.specs.StepChoice.{IsAsGood, StandsAgainst};

use crate::placing::honoured;
use crate::sublists::{is_same, is_sublist, sublists};
use office_base::{ListId, OutOfMemory, People, Person, Step, better};
use std::alloc::Global;

/// Returns whether the chosen are what the step admits: a set of its people within the seats that holds against every
/// other. `OutOfMemory` leaves nothing behind.
pub fn is_choice(alloc: Global, step: &Step, chosen: &[Person]) -> Result<bool, OutOfMemory>
    requires { IsStep step.now }
    ensures { IfOk result (λ yes. IsTrue yes ↔ IsStepChoice step.now chosen.now) }
{
    if !may_admit(step, chosen) {
        return Ok(false);
    }
    let others = sublists(alloc, step.people.as_slice())?;
    Ok(stands_against_all(step, chosen, &others))
}

/// What the step admits: the first of all sets of its people that is its choice. `None` says that no set is.
/// `OutOfMemory` leaves nothing behind.
pub fn choice(alloc: Global, step: &Step) -> Result<Option<People>, OutOfMemory>
    requires { IsStep step.now }
    ensures { IfOk result (λ found. MatchOption found ((set : _)
        → ¬ IsStepChoice step.now set) (λ set. IsStepChoice step.now set)) }
{
    for set in sublists(alloc, step.people.as_slice())? {
        if is_choice(alloc, step, set.as_slice())? {
            return Ok(Some(set));
        }
    }
    Ok(None)
}

/// Whether the set is of the step's people, in their order, and the seats can hold it.
fn may_admit(step: &Step, set: &[Person]) -> bool
    ensures { IsTrue result ↔ MayAdmit step.now set.now }
{
    set.len() <= usize::from(step.seats) && is_sublist(set, step.people.as_slice())
}

/// Whether the set is as good as each of the others that the seats can hold.
fn stands_against_all(step: &Step, set: &[Person], others: &[People]) -> bool
    requires step { IsStep step.now }
    requires set { IsSublist set.now step.now.people }
    requires others { All (λ other. IsSublist other step.now.people) others.now }
    ensures { IsTrue result ↔ All (StandsAgainst step.now set.now) others.now }
{
    for other in others {
        if !stands_against(step, set, other.as_slice()) {
            return false;
        }
    }
    true
}

/// Whether the set is as good as the other, if the seats can hold the other.
fn stands_against(step: &Step, set: &[Person], other: &[Person]) -> bool
    requires step { IsStep step.now }
    requires set { IsSublist set.now step.now.people }
    requires other { IsSublist other.now step.now.people }
    ensures { IsTrue result ↔ StandsAgainst step.now set.now other.now }
{
    other.len() > usize::from(step.seats) || is_as_good(step, set, other)
}

/// Whether the set honours more than the other, or as many and is the same or better at every merit place.
fn is_as_good(step: &Step, set: &[Person], other: &[Person]) -> bool
    requires step { IsStep step.now }
    requires set { IsSublist set.now step.now.people }
    requires other { IsSublist other.now step.now.people }
    ensures { IsTrue result ↔ IsAsGood step.now set.now other.now }
{
    let number = honoured(set, &step.protections);
    let others_number = honoured(other, &step.protections);
    others_number < number || (others_number == number && is_no_worse(step.list, set, other))
}

/// Whether each of the others has in the same place of the first list the same person or a better one.
fn is_no_worse(list: ListId, people: &[Person], others: &[Person]) -> bool
    requires { IsList list }
    ensures { IsTrue result ↔ IsNoWorse list people.now others.now }
{
    let [other, others @ ..] = others else {
        return true;
    };
    match people {
        [person, rest @ ..] => {
            (is_same(person, other) || better(person, other, list))
                && is_no_worse(list, rest, others)
        }
        [] => false,
    }
}
