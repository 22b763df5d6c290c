// The sublists of people, all of them, and a test of being one.
ghost use Rattle.std.specs.Prelude.{◌≡◌, ◌∷◌, ◌↔◌, IsTrue, IfOk};
ghost use Rattle.office_base.specs.Lists.{IsSublist};
ghost use Rattle.choice_trials.specs.Sublists.{sublists_of};

use office_base::{OutOfMemory, People, Person, Place};
use std::alloc::Global;

/// Whether the set has some of the people, in their order.
pub(crate) fn is_sublist(set: &[Person], people: &[Person]) -> bool
    ensures { IsTrue result ↔ IsSublist set.now people.now }
{
    let [person, others @ ..] = people else {
        return set.is_empty();
    };
    if is_sublist(set, others) {
        return true;
    }
    match set {
        [first, rest @ ..] => is_same(first, person) && is_sublist(rest, others),
        [] => false,
    }
}

/// Whether the two are one person, in all that is known of them.
pub(crate) fn is_same(first: &Person, second: &Person) -> bool
    ensures { IsTrue result ↔ (first.now ≡ second.now) }
{
    first.id == second.id
        && first.category == second.category
        && first.traits == second.traits
        && are_same_places(&first.places, &second.places)
}

fn are_same_places(first: &[Place], second: &[Place]) -> bool
    ensures { IsTrue result ↔ (first.now ≡ second.now) }
{
    match (first, second) {
        ([], []) => true,
        ([place, rest @ ..], [other, others @ ..]) => place == other
            && are_same_places(rest, others),
        _ => false,
    }
}

/// All sublists of the people: those without the first of them, and those with the first in front.
pub(crate) fn sublists(alloc: Global, people: &[Person]) -> Result<Vec<People>, OutOfMemory>
    ensures { IfOk result (λ sets. sets.items ≡ sublists_of people.now) }
{
    let [person, others @ ..] = people else {
        let mut sets = Vec::new(alloc);
        sets.push(People::new(alloc))?;
        return Ok(sets);
    };
    let mut sets = sublists(alloc, others)?;
    for k in 0..sets.len() {
        let set = with_front(alloc, *person, sets[k].as_slice())?;
        sets.push(set)?;
    }
    Ok(sets)
}

/// The people with one more in front of them.
fn with_front(alloc: Global, first: Person, rest: &[Person]) -> Result<People, OutOfMemory>
    ensures { IfOk result (λ people. people ≡ first ∷ rest.now) }
{
    let mut people = People::new(alloc);
    people.push(first)?;
    for person in rest {
        people.push(*person)?;
    }
    Ok(people)
}
