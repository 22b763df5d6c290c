// Who could take the place of one of those listed.
ghost use Rattle.std.specs.Prelude.{◌≡◌, ◌≢◌, ◌<◌, ◌↔◌, ◌⊎◌, ℕ, List, IsTrue, IsSome, true, length, slice_index_or};
ghost use Rattle.std.specs.List.{AllByRecursion};
ghost use Rattle.office_base.specs.Lists.{AnyByRecursion};
ghost use Rattle.office_base.specs.Person.{IsBetter, IsList, IsTraitSet, number_in};
ghost use Rattle.office_base.specs.StepChoice.{AreRanked};
ghost use Rattle.office_base.specs.declared.person.Person.{Person as AnyPerson};
ghost use Rattle.placements.specs.Ranks.{CanBePlaced};
ghost use Rattle.slot_matching.specs.Augmented.{CanReplace};
ghost use Rattle.slot_matching.specs.Kept.{MayJoin, with_member};
ghost use Rattle.list_audit.specs.Reckoning.{IsAhead, IsBetterThan, IsFirstAhead, IsReckoned, AreWorst, IsWorstWithin};

use crate::needed::Reckoning;
use office_base::{CandId, ListId, Person, TraitSet, better};
use placements::is_within;
use slot_matching::Matching;

/// Whether the person is better than this one, where there is one.
fn is_better_than(person: &Person, list: ListId, other: &Option<Person>) -> bool
    requires { IsList list }
    ensures { IsTrue result ↔ IsBetterThan list person.now other.now }
{
    match other {
        Some(other) => better(person, other, list),
        None => false,
    }
}

/// The worse one of two, of whom the second has a place in the list.
fn worse_of(worst: Option<Person>, member: &Person, list: ListId) -> Option<Person>
    requires list { IsList list }
    requires placed { IsSome (number_in list member.now) }
    ensures { (person : AnyPerson) → IsBetterThan list person result
        ↔ (IsBetterThan list person worst ⊎ IsBetter list person member.now) }
{
    match worst {
        Some(other) => {
            if better(member, &other, list) {
                Some(other)
            } else {
                Some(*member)
            }
        }
        None => Some(*member),
    }
}

/// The worst of the members who hold no trait outside the set.
fn worst_within(members: &[Person], list: ListId, set: TraitSet) -> Option<Person>
    requires list { IsList list }
    requires placed { AllByRecursion (λ member. IsSome (number_in list member)) members.now }
    ensures { IsWorstWithin list set members.now result }
{
    let mut worst = None;
    for member in members {
        if is_within(member.traits, set) {
            worst = worse_of(worst, member, list);
        }
    }
    worst
}

/// For each set of traits, by its number, the worst of the members who hold no trait outside it.
fn worst_by_sets(members: &[Person], list: ListId) -> [Option<Person>; 64]
    requires list { IsList list }
    requires placed { AllByRecursion (λ member. IsSome (number_in list member)) members.now }
    ensures { AreWorst list members.now result }
{
    let mut worst = [None; 64];
    for set in 0..64 {
        worst[usize::from(set)] = worst_within(members, list, TraitSet(set));
    }
    worst
}

/// Whether the person can take the place of a worse member.
fn replaces_worse(
    needed: &Matching,
    worst: &[Option<Person>; 64],
    list: ListId,
    person: &Person,
) -> bool
    requires list { IsList list }
    requires worst { AreWorst list needed.now.members worst.now }
    requires traits { AllByRecursion (λ member. IsTraitSet member.traits) needed.now.members }
    requires may { MayJoin needed.now person.now }
    requires cannot { ¬ CanBePlaced needed.now.protections
        (with_member needed.now person.now).members }
    ensures { IsTrue result ↔ AnyByRecursion (λ member. CanReplace needed.now person.now member
        × IsBetter list person.now member) needed.now.members }
{
    match needed.replaceable(person) {
        Some(set) => is_better_than(person, list, &worst[usize::from(set.0 & 63)]),
        None => unreachable!("the person cannot be placed with all"),
    }
}

/// Whether the person could take the place of one of those listed who is worse.
fn is_ahead(
    reckoning: &Reckoning,
    worst: &[Option<Person>; 64],
    list: ListId,
    person: &Person,
) -> bool
    requires list { IsList list }
    requires worst { AreWorst list reckoning.now.needed.members worst.now }
    requires traits { AllByRecursion (λ member. IsTraitSet member.traits)
        reckoning.now.needed.members }
    requires may { MayJoin reckoning.now.needed person.now }
    requires cannot { ¬ CanBePlaced reckoning.now.needed.protections
        (with_member reckoning.now.needed person.now).members }
    ensures { (listed : List AnyPerson) → IsReckoned list reckoning.now.needed.protections
        listed reckoning.now.needed reckoning.now.free → IsTrue result ↔ IsAhead list
        reckoning.now.needed.protections listed reckoning.now.needed.members person.now }
{
    is_better_than(person, list, &reckoning.free)
        || replaces_worse(&reckoning.needed, worst, list, person)
}

/// The first of the people, who are new to those listed, who could take the place of one of them who is worse. It walks the members once for each set of
/// traits, and then looks at no member.
pub(crate) fn first_ahead(reckoning: &Reckoning, list: ListId, people: &[Person]) -> Option<CandId>
    requires list { IsList list }
    requires placed { AllByRecursion (λ member. IsSome (number_in list member))
        reckoning.now.needed.members }
    requires traits { AllByRecursion (λ member. IsTraitSet member.traits)
        reckoning.now.needed.members }
    requires may { AllByRecursion (λ person. MayJoin reckoning.now.needed person) people.now }
    requires cannot { AllByRecursion (λ person. ¬ CanBePlaced reckoning.now.needed.protections
        (with_member reckoning.now.needed person).members) people.now }
    ensures { (listed : List AnyPerson) → IsReckoned list reckoning.now.needed.protections
        listed reckoning.now.needed reckoning.now.free → IsFirstAhead list
        reckoning.now.needed.protections listed reckoning.now.needed.members people.now result }
{
    let worst = worst_by_sets(reckoning.needed.members(), list);
    for person in people {
        if is_ahead(reckoning, &worst, list, person) {
            return Some(person.id);
        }
    }
    None
}
