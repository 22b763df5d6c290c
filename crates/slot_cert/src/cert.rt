// A certificate, and whether it holds of a list of persons.
ghost use Rattle.std.specs.Prelude.{◌≡◌, ◌≢◌, ◌<◌, ◌≤◌, ℕ, length, IsTrue, ◌↔◌, MatchOption};
ghost use Rattle.std.specs.List.{AllByRecursion};
ghost use Rattle.office_base.specs.Lists.{AnyByRecursion, Pairwise};
ghost use Rattle.office_base.specs.Person.{IsTraitSet};
ghost use Rattle.office_base.specs.Placement.{Fills, IsPlacement, placed_on, protected};

use office_base::{Pair, Pairs, Person, Protections};

/// Holds the pairs that a certificate shows: who fills which protected position.
#[derive(Drop)]
pub struct Cert {
    pub pairs: Pairs,
}

impl Cert {
    /// Returns whether the pairs place some of the admitted on the protected positions. The admitted may be any list
    /// of persons, and the pairs any pairs: nobody holds a slot from 6 on. Allocates nothing.
    pub fn check(&self, protections: &Protections, admitted: &[Person]) -> bool
        requires { AllByRecursion (λ person. IsTraitSet person.traits) admitted.now }
        ensures { IsTrue result ↔ IsPlacement protections.now admitted.now self.now.pairs }
    {
        let pairs = self.pairs.as_slice();
        if !are_held(pairs, admitted) {
            return false;
        }
        if !stand_once(pairs) {
            return false;
        }
        are_within(pairs, protections)
    }
}

/// Whether the pair is of this person, who holds its trait.
fn fills(pair: &Pair, person: &Person) -> bool
    requires { IsTraitSet person.now.traits }
    ensures { IsTrue result ↔ Fills pair.now person.now }
{
    // there are six traits
    if pair.slot >= 6 {
        return false;
    }
    pair.cand == person.id && person.traits.has(pair.slot)
}

/// The place of the first person whom the pair is of and who holds its trait.
fn first_filled(pair: &Pair, people: &[Person]) -> Option<usize>
    requires { AllByRecursion (λ person. IsTraitSet person.traits) people.now }
    ensures within { MatchOption result (Unit {0}) (λ at. at < length people.now) }
    ensures found { MatchOption result (AnyByRecursion (Fills pair.now) people.now
        → ⊥) (λ _. AnyByRecursion (Fills pair.now) people.now) }
{
    for (at, person) in people.iter().enumerate() {
        if fills(pair, person) {
            return Some(at);
        }
    }
    None
}

/// Whether each pair is of one of the people, who holds its trait. Pairs in the order of the people take one walk.
fn are_held(pairs: &[Pair], people: &[Person]) -> bool
    requires { AllByRecursion (λ person. IsTraitSet person.traits) people.now }
    ensures { IsTrue result
        ↔ AllByRecursion (λ pair. AnyByRecursion (Fills pair) people.now) pairs.now }
{
    let mut next = 0;
    for pair in pairs {
        match first_filled_from(pair, people, next) {
            Some(at) => next = at,
            None => return false,
        }
    }
    true
}

/// The place of a person whom the pair is of and who holds its trait: the first from this place on, else the first.
fn first_filled_from(pair: &Pair, people: &[Person], next: usize) -> Option<usize>
    requires traits { AllByRecursion (λ person. IsTraitSet person.traits) people.now }
    requires within { next ≤ length people.now }
    ensures within { MatchOption result (Unit {0}) (λ at. at < length people.now) }
    ensures found { MatchOption result (AnyByRecursion (Fills pair.now) people.now
        → ⊥) (λ _. AnyByRecursion (Fills pair.now) people.now) }
{
    match first_filled(pair, &people[next..]) {
        Some(at) => Some(next + at),
        None => first_filled(pair, &people[..next]),
    }
}

/// Whether none of the pairs is of the first pair's person.
fn is_alone(pair: &Pair, others: &[Pair]) -> bool
    ensures { IsTrue result ↔ AllByRecursion (λ other. pair.now.cand ≢ other.cand) others.now }
{
    others.iter().all(|other| other.cand != pair.cand)
}

/// Returns whether nobody is in two of the pairs.
fn stand_once(pairs: &[Pair]) -> bool
    ensures { IsTrue result ↔ Pairwise (λ a b. a.cand ≢ b.cand) pairs.now }
{
    for (at, pair) in pairs.iter().enumerate() {
        if !is_alone(pair, &pairs[at + 1..]) {
            return false;
        }
    }
    true
}

/// Returns how many of the pairs are on positions of a trait.
fn count_on(pairs: &[Pair], t: u8) -> usize
    ensures { result ≡ placed_on t pairs.now }
{
    pairs.iter().filter(|pair| pair.slot == t).count()
}

/// Returns whether no trait, of the numbers 0 to 5, is in more pairs than it has positions.
fn are_within(pairs: &[Pair], protections: &Protections) -> bool
    ensures { IsTrue result
        ↔ ((t : ℕ) → t < 6 → placed_on t pairs.now ≤ protected protections.now t) }
{
    for t in 0..6 {
        if count_on(pairs, t) > usize::from(protections.counts[usize::from(t)]) {
            return false;
        }
    }
    true
}
