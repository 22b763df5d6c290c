// The number of protections that people honour, by trying every person on every trait.
ghost use Rattle.std.specs.Prelude.{◌≡◌, ◌≢◌, ◌≤◌, ◌<◌, ◌↔◌, length, IsTrue, IfSome, IsSome};
ghost use Rattle.std.specs.List.{AllByRecursion};
ghost use Rattle.office_base.specs.Person.{IsTraitSet, has_trait};
ghost use Rattle.office_base.specs.Placement.{protected, IsHonoured};
ghost use Rattle.placements.specs.Ranks.{AreDistinct};
ghost use Rattle.placements.specs.Greatest.{one_less, IsGreatest};

use office_base::{Person, Protections};

/// Returns the number of protections that the people honour. Allocates nothing, and takes time that doubles with each
/// person or more.
pub fn honoured(people: &[Person], protections: &Protections) -> usize
    requires distinct { AreDistinct people.now }
    requires traits { AllByRecursion (λ person. IsTraitSet person.traits) people.now }
    ensures number { IsHonoured protections.now people.now result }
    ensures within { result ≤ length people.now }
{
    greatest(people, *protections)
}

/// Returns what is left once the person fills a position of the trait, if the person holds the trait and a position
/// of it is left.
pub(crate) fn left_after(left: Protections, person: &Person, t: u8) -> Option<Protections>
    requires number { t < 6 }
    requires traits { IsTraitSet person.now.traits }
    ensures stands { IfSome result (λ rest. rest ≡ one_less left t) }
    ensures exact { IsSome result
        ↔ (IsTrue (has_trait person.now.traits t) × (0 < protected left t)) }
{
    let at = usize::from(t);
    if !person.traits.has(t) || left.counts[at] == 0 {
        return None;
    }
    let mut rest = left;
    rest.counts[at] -= 1;
    Some(rest)
}

/// Returns the greatest number of the people on positions, when these positions are left. The first person is placed
/// nowhere, or on a trait that they hold and that has a position. The others cannot have that position.
pub(crate) fn greatest(people: &[Person], left: Protections) -> usize
    requires { AllByRecursion (λ person. IsTraitSet person.traits) people.now }
    ensures number { IsGreatest left people.now result }
    ensures within { result ≤ length people.now }
{
    let [person, others @ ..] = people else {
        return 0;
    };
    let mut number = greatest(others, left);
    for t in 0..6 {
        if let Some(rest) = left_after(left, person, t) {
            number = number.max(1 + greatest(others, rest));
        }
    }
    number
}
