// For each set of traits, how many persons more can be placed who hold no trait outside it.
//
// A person can be placed with the members exactly where each set that holds the person's traits has one to spare.
ghost use Rattle.std.specs.Prelude.{◌≡◌, ◌≤◌, ◌<◌, ◌+◌, ℕ, length, sum, slice_index, IsTrue, true, ◌↔◌, if◌then◌else◌};
ghost use Rattle.office_base.specs.Person.{IsTraitSet};
ghost use Rattle.placements.specs.Demand.{is_within, positions};
ghost use Rattle.slot_matching.specs.Full.{AreClosed, HasSpareBelow, IsLeastOf, met};

use office_base::{Protections, TraitSet};
use placements::{is_within, positions};

/// How many sets of six traits there are.
pub(crate) const SETS: u8 = 64;

/// What each set has to spare before anybody came: its positions.
pub(crate) fn all_spare(protections: &Protections) -> [u16; 64]
    requires { sum protections.now.counts ≤ 65535 }
    ensures sets { length result ≡ 64 }
    ensures left { (m : ℕ) → m < 64
        → slice_index result m ≡ positions protections.now (record { 0 = m }) }
{
    let mut spare = [0; 64];
    for set in 0..SETS {
        spare[usize::from(set)] = positions(protections, TraitSet(set)) as u16;
    }
    spare
}

/// The traits that both sets hold, or those of the second where there is no first.
fn meet(found: Option<TraitSet>, set: TraitSet) -> TraitSet
    ensures { result ≡ met found set }
{
    match found {
        None => set,
        Some(other) => TraitSet(other.0 & set.0),
    }
}

/// The least set that holds these traits and has nothing to spare, or None where each set that holds them has one.
pub(crate) fn least_full(spare: &[u16], traits: TraitSet) -> Option<TraitSet>
    requires sets { length spare.now ≡ 64 }
    requires traits { IsTraitSet traits }
    requires closed { AreClosed spare.now }
    ensures { IsLeastOf 64 spare.now traits result }
{
    // mostly these very traits
    if spare[usize::from(traits.0)] == 0 {
        return Some(traits);
    }
    common_full(spare, traits)
}

/// What all sets that hold these traits and have nothing to spare hold in common, or None where each set that holds them has one.
fn common_full(spare: &[u16], traits: TraitSet) -> Option<TraitSet>
    requires sets { length spare.now ≡ 64 }
    requires closed { AreClosed spare.now }
    ensures { IsLeastOf 64 spare.now traits result }
{
    let mut least = None;
    for n in 0..SETS {
        let set = TraitSet(n);
        if is_within(traits, set) && spare[usize::from(n)] == 0 {
            least = Some(meet(least, set));
        }
    }
    least
}

/// Whether each set that holds these traits has one to spare.
pub(crate) fn has_spare(spare: &[u16], traits: TraitSet) -> bool
    requires sets { length spare.now ≡ 64 }
    requires traits { IsTraitSet traits }
    ensures { IsTrue result ↔ HasSpareBelow 64 spare.now traits }
{
    // where they have none themselves, no other set need be looked at
    spare[usize::from(traits.0)] > 0 && all_have_spare(spare, traits)
}

/// The same, set by set.
fn all_have_spare(spare: &[u16], traits: TraitSet) -> bool
    requires { length spare.now ≡ 64 }
    ensures { IsTrue result ↔ HasSpareBelow 64 spare.now traits }
{
    for set in 0..SETS {
        if is_within(traits, TraitSet(set)) && spare[usize::from(set)] == 0 {
            return false;
        }
    }
    true
}

/// Takes one from each set that holds these traits.
pub(crate) fn take_spare(spare: &mut [u16], traits: TraitSet)
    requires sets { length spare.old ≡ 64 }
    requires some { HasSpareBelow 64 spare.old traits }
    ensures sets { length spare.new ≡ 64 }
    ensures taken { (m : ℕ) → m < 64 → slice_index spare.new m
        + (if is_within traits (record { 0 = m }) then 1 else 0) ≡ slice_index spare.old m }
{
    for set in 0..SETS {
        if is_within(traits, TraitSet(set)) {
            spare[usize::from(set)] -= 1;
        }
    }
}

/// Gives one back to each set that holds these traits.
pub(crate) fn give_spare(spare: &mut [u16], traits: TraitSet)
    requires sets { length spare.old ≡ 64 }
    requires room { (m : ℕ) → m < 64 → IsTrue (is_within traits (record { 0 = m }))
        → slice_index spare.old m < 65535 }
    ensures sets { length spare.new ≡ 64 }
    ensures given { (m : ℕ) → m < 64 → slice_index spare.new m
        ≡ slice_index spare.old m + (if is_within traits (record { 0 = m }) then 1 else 0) }
{
    for set in 0..SETS {
        if is_within(traits, TraitSet(set)) {
            spare[usize::from(set)] += 1;
        }
    }
}
