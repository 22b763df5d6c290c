// What the words on sets of traits come to.
ghost use Rattle.std.specs.Prelude.{◌≡◌, ◌<◌, ◌≤◌, ◌*◌, sum};
ghost use Rattle.office_base.specs.Person.{IsTraitSet};
ghost use Rattle.placements.specs.Demand.{is_within, positions};

use office_base::{Protections, TraitSet};

/// Whether each trait of the first set is in the second.
pub fn is_within(traits: TraitSet, set: TraitSet) -> bool
    ensures { result ≡ is_within traits set }
{
    traits.0 & set.0 == traits.0
}

/// How many positions are protected for the traits of a set.
#[tactic(auto, using(crate::proofs::Hall::positions_below_few))]
pub fn positions(protections: &Protections, set: TraitSet) -> u32
    requires { IsTraitSet set }
    ensures value { result ≡ positions protections.now set }
    ensures within { result ≤ sum protections.now.counts }
    ensures small { result < 6 * 65536 }
{
    let mut sum = 0;
    for t in 0..6 {
        if set.has(t) {
            sum += u32::from(protections.counts[usize::from(t)]);
        }
    }
    sum
}
