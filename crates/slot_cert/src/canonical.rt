// The certificate of the admitted: the first of the longest placements, down the merit order.
ghost use Rattle.std.specs.Prelude.{◌≡◌, ◌≢◌, ◌<◌, List, IfOk, MatchBool, ◌∷◌};
ghost use Rattle.std.specs.List.{AllByRecursion};
ghost use Rattle.office_base.specs.Certificate.{IsCanonical};
ghost use Rattle.office_base.specs.Person.{IsTraitSet};
ghost use Rattle.office_base.specs.declared.person.Person.{Person};
ghost use Rattle.placements.specs.Ranks.{AreDistinct};

use crate::bounds::{count_outside, keeps, least, leave, take};
use office_base::{OutOfMemory, Pair, Pairs, Person, Protections, TraitSet};
use placements::positions;
use std::alloc::Global;

/// Returns the pairs of the certificate of the admitted, who are in merit order: the longest placement there is, and
/// of those the first, where a smaller trait number comes before a larger one and no trait comes last.
pub fn canonical_pairs(
    alloc: Global,
    admitted: &[Person],
    protections: &Protections,
) -> Result<Pairs, OutOfMemory>
    requires distinct { AreDistinct admitted.now }
    requires traits { AllByRecursion (λ person. IsTraitSet person.traits) admitted.now }
    ensures { IfOk result (λ pairs. IsCanonical protections.now admitted.now pairs) }
{
    let mut search = Search::new(protections, admitted);
    let mut pairs = Pairs::new(alloc);
    for person in admitted {
        if let Some(slot) = search.place(person) {
            pairs.push(Pair {
                cand: person.id,
                slot,
            })?;
        }
    }
    Ok(pairs)
}

/// What is left while people are placed one after another.
#[derive(Drop)]
struct Search {
    /// the positions that nobody has taken yet
    room: Protections,
    /// for each set of traits, by its number, how many of those who follow can be placed at most: as many as the set's
    /// traits have room and as there are people who hold a trait outside the set
    bounds: [usize; 64],
    /// how many of those who follow are to be placed: the least of the bounds
    most: usize,
}

impl Search {
    ghost use Rattle.slot_cert.specs.First.{MayTake, MustPass, IsFirstChoice};
    ghost use Rattle.slot_cert.specs.Bounds.{AreBounds};
    ghost use Rattle.slot_cert.specs.Search.{IsSearch, Moves};

    /// The search in front of all of the people.
    fn new(protections: &Protections, people: &[Person]) -> Search
        ensures room { result.room ≡ protections.now }
        ensures search { IsSearch result people.now }
    {
        let mut bounds = [0; 64];
        for n in 0..64 {
            let set = TraitSet(n);
            bounds[usize::from(n)] = positions(protections, set) as usize
                + count_outside(people, set);
        }
        Search {
            room: Protections {
                counts: protections.counts,
            },
            most: least(&bounds),
            bounds,
        }
    }

    /// Places the next person on the first trait that leaves as many to be placed as before, if there is one. Then
    /// the search is in front of those who follow.
    fn place(&mut self, person: &Person) -> Option<u8>
        requires traits { IsTraitSet person.now.traits }
        requires search { (rest : List Person) × IsSearch self.old (person.now ∷ rest) }
        ensures choice { (rest : List Person) → IsSearch self.old (person.now ∷ rest)
            → IsFirstChoice self.old.room rest self.old.most person.now.traits result }
        ensures search { (rest : List Person) → IsSearch self.old (person.now ∷ rest)
            → IsSearch self.new rest }
        ensures moves { Moves self.old result self.new }
    {
        leave(&mut self.bounds, person.traits);
        let slot = self.choose(person.traits);
        if let Some(t) = slot {
            take(&mut self.bounds, t);
            self.room.counts[usize::from(t)] -= 1;
            self.most -= 1;
        }
        slot
    }

    /// Returns the first trait on which a person with these traits can be placed without loss to those who follow.
    fn choose(&self, traits: TraitSet) -> Option<u8>
        requires traits { IsTraitSet traits }
        ensures { (rest : List Person) → AreBounds self.now.bounds self.now.room rest
            → IsFirstChoice self.now.room rest self.now.most traits result }
    {
        for t in 0..6 {
            if self.may_take(traits, t) {
                return Some(t);
            }
        }
        None
    }

    /// Returns whether a person with these traits can be placed on this trait without loss to those who follow.
    fn may_take(&self, traits: TraitSet, t: u8) -> bool
        requires traits { IsTraitSet traits }
        requires trait_number { t < 6 }
        ensures { (rest : List Person) → AreBounds self.now.bounds self.now.room rest
            → MatchBool result (MayTake self.now.room rest self.now.most traits t)
            (MustPass self.now.room rest self.now.most traits t) }
    {
        traits.has(t) && self.room.counts[usize::from(t)] > 0 && keeps(&self.bounds, self.most, t)
    }
}
