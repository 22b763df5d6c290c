// Bounds on how many people can be placed, one for each of the 64 sets of traits, by the numbers of the sets.
ghost use Rattle.std.specs.Prelude.{◌≡◌, ◌<◌, ◌≤◌, ◌+◌, ℕ, true, length, slice_index, MatchBool, if◌then◌else◌};
ghost use Rattle.office_base.specs.Person.{has_trait};
ghost use Rattle.placements.specs.Demand.{is_within, asking_outside};

use office_base::{Person, TraitSet};
use placements::is_within;

/// How many of the people hold a trait outside the set.
pub(crate) fn count_outside(people: &[Person], set: TraitSet) -> usize
    ensures value { result ≡ asking_outside set people.now }
    ensures within { result ≤ length people.now }
{
    let mut count = 0;
    for person in people {
        if !is_within(person.traits, set) {
            count += 1;
        }
    }
    count
}

/// The least of the bounds.
pub(crate) fn least(bounds: &[usize; 64]) -> usize
    ensures below { (n : ℕ) → n < 64 → result ≤ slice_index bounds.now n }
    ensures met { (n : ℕ) × (n < 64) × (slice_index bounds.now n ≡ result) }
{
    let mut least = bounds[0];
    for bound in bounds {
        least = least.min(*bound);
    }
    least
}

/// Takes a person out of the bounds that count the person.
pub(crate) fn leave(bounds: &mut [usize; 64], traits: TraitSet)
    requires { (n : ℕ) → n < 64
        → (if is_within traits (record { 0 = n }) then 0 else 1) ≤ slice_index bounds.old n }
    ensures { (n : ℕ) → n < 64 → (if is_within traits (record { 0 = n }) then 0 else 1)
        + slice_index bounds.new n ≡ slice_index bounds.old n }
{
    for n in 0..64 {
        if !is_within(traits, TraitSet(n)) {
            bounds[usize::from(n)] -= 1;
        }
    }
}

/// Takes a position of a trait out of the bounds that count it.
pub(crate) fn take(bounds: &mut [usize; 64], t: u8)
    requires trait_number { t < 6 }
    requires counted { (n : ℕ) → n < 64
        → (if has_trait (record { 0 = n }) t then 1 else 0) ≤ slice_index bounds.old n }
    ensures { (n : ℕ) → n < 64 → (if has_trait (record { 0 = n }) t then 1 else 0)
        + slice_index bounds.new n ≡ slice_index bounds.old n }
{
    for n in 0..64 {
        if TraitSet(n).has(t) {
            bounds[usize::from(n)] -= 1;
        }
    }
}

/// Whether no set with the trait has a bound below this number.
pub(crate) fn keeps(bounds: &[usize; 64], most: usize, t: u8) -> bool
    requires { t < 6 }
    ensures { MatchBool result ((n : ℕ) → n < 64 → has_trait (record { 0 = n }) t ≡ true
        → most ≤ slice_index bounds.now n) ((n : ℕ) × (n < 64)
        × (has_trait (record { 0 = n }) t ≡ true) × (slice_index bounds.now n < most)) }
{
    for n in 0..64 {
        if TraitSet(n).has(t) && bounds[usize::from(n)] < most {
            return false;
        }
    }
    true
}
