// The canonical certificate, person by person, each by trying all placements of those who follow.
ghost use Rattle.std.specs.Prelude.{◌≡◌, ◌≢◌, ◌∷◌, ◌++◌, IfOk, OnOk, IfSome, IfNone};
ghost use Rattle.std.specs.List.{AllByRecursion};
ghost use Rattle.office_base.specs.Certificate.{IsCanonical};
ghost use Rattle.office_base.specs.Person.{IsTraitSet};
ghost use Rattle.placements.specs.Ranks.{AreDistinct};
ghost use Rattle.placements.specs.Greatest.{one_less};
ghost use Rattle.placements.specs.Slots.{pairs_of};
ghost use Rattle.choice_trials.specs.First.{IsFirst, IsFirstStand, StandsNowhere};

use crate::placing::{greatest, left_after};
use office_base::{OutOfMemory, Pair, Pairs, Person, Protections};
use std::alloc::Global;

/// Returns the pairs of the first of the longest placements of the people, who are in merit order. `OutOfMemory`
/// leaves nothing behind.
pub fn canonical(
    alloc: Global,
    people: &[Person],
    protections: &Protections,
) -> Result<Pairs, OutOfMemory>
    requires distinct { AreDistinct people.now }
    requires traits { AllByRecursion (λ person. IsTraitSet person.traits) people.now }
    ensures { IfOk result (λ pairs. IsCanonical protections.now people.now pairs) }
{
    let mut pairs = Pairs::new(alloc);
    push_first(&mut pairs, people, *protections)?;
    Ok(pairs)
}

/// Adds the pairs of the first of the longest placements of the people on what is left.
fn push_first(pairs: &mut Pairs, people: &[Person], left: Protections) -> Result<(), OutOfMemory>
    requires { AllByRecursion (λ person. IsTraitSet person.traits) people.now }
    ensures { OnOk result ((slots : _) × IsFirst left people.now slots
        × (pairs.new ≡ pairs.old ++ pairs_of people.now slots)) }
{
    let [person, others @ ..] = people else {
        return Ok(());
    };
    match first_stand(people, left) {
        None => push_first(pairs, others, left),
        Some((slot, rest)) => {
            pairs.push(Pair {
                cand: person.id,
                slot,
            })?;
            push_first(pairs, others, rest)
        }
    }
}

/// Returns the smallest trait on which the first person is placed in a longest placement, and what is left for the
/// others. `None` says that the person is placed nowhere in each of them.
fn first_stand(people: &[Person], left: Protections) -> Option<(u8, Protections)>
    requires { AllByRecursion (λ person. IsTraitSet person.traits) people.now }
    ensures nowhere { IfNone result (StandsNowhere left people.now) }
    ensures first { IfSome result (λ stand. IsFirstStand left people.now stand.0) }
    ensures rest { IfSome result (λ stand. stand.1 ≡ one_less left stand.0) }
{
    let [person, others @ ..] = people else {
        return None;
    };
    let number = greatest(people, left);
    for t in 0..6 {
        if let Some(rest) = left_after(left, person, t) {
            if 1 + greatest(others, rest) == number {
                return Some((t, rest));
            }
        }
    }
    None
}
