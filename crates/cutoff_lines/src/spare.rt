// The cutoff for one newcomer, from those whom the seats hold.
ghost use Rattle.std.specs.Prelude.{◌≡◌, ◌≤◌, ◌↔◌, ◌⊎◌, sum, false, true, IsTrue, IfOk};
ghost use Rattle.std.specs.List.{AllZip};
ghost use Rattle.office_base.specs.Person.{IsList, IsTraitSet};
ghost use Rattle.office_base.specs.StepChoice.{AreRanked};
ghost use Rattle.placements.specs.Demand.{is_within};
ghost use Rattle.merit_choice.specs.Needed.{Tells};
ghost use Rattle.merit_choice.specs.State.{IsStepKept};
ghost use Rattle.step_cutoffs.specs.Cutoff.{IsCutoff};
ghost use Rattle.cutoff_lines.specs.Found.{IsLastPlace, IsNeededOf, holding};

use office_base::{ListId, Listed, OutOfMemory, Person, Protections, TraitSet};
use placements::is_within;
use slot_matching::Matching;
use std::alloc::Global;
use step_cutoffs::Cutoff;

/// Whom the protections of a step need, of those whom its seats hold: their matching, and a mark for each of those
/// held, in their order.
#[derive(Drop)]
pub(crate) struct Marked {
    matching: Matching,
    needed: Listed<bool>,
}

/// Finds those whom the protections of a step need, of those whom its seats hold. Walks through these once.
pub(crate) fn needed_of(
    alloc: Global,
    list: ListId,
    protections: &Protections,
    held: &[Person],
) -> Result<Marked, OutOfMemory>
    requires list { IsList list }
    requires few { sum protections.now.counts ≤ 65535 }
    requires ranked { AreRanked list held.now }
    ensures { IfOk result (λ marked.
        IsNeededOf list protections.now held.now marked.matching marked.needed) }
{
    let mut matching = Matching::new(alloc, *protections, list)?;
    let mut needed = Listed::with_capacity(alloc, held.len())?;
    for person in held {
        let joins = matching.raises(person);
        if joins {
            let _answer = matching.augment(person);
        }
        needed.push(joins)?;
    }
    Ok(Marked { matching, needed })
}

/// Returns whether the person is not needed, or holds no trait outside the set.
fn is_spare(person: &Person, needed: bool, set: TraitSet) -> bool
    ensures { IsTrue result ↔ ((needed ≡ false) ⊎ (is_within person.now.traits set ≡ true)) }
{
    !needed || is_within(person.traits, set)
}

/// Returns the place of the last of those held who is spare. Walks through them at most once.
fn last_spare(list: ListId, held: &[Person], marked: &Marked, set: TraitSet) -> Option<u32>
    requires list { IsList list }
    requires ranked { AreRanked list held.now }
    requires told { AllZip (Tells marked.now.matching.members) held.now marked.now.needed }
    ensures { IsLastPlace list held.now marked.now.matching.members set result }
{
    let needed = marked.needed.as_slice();
    let mut at = held.len();
    while at > 0 {
        at -= 1;
        if is_spare(&held[at], needed[at], set) {
            return held[at].place(list).number();
        }
    }
    None
}

/// Returns the cutoff for newcomers with these traits. A person who is held and not needed can be replaced. A person
/// who is needed can be if they hold no trait outside the least full set that holds these traits.
pub(crate) fn cutoff_with(
    list: ListId,
    seats: u32,
    held: &[Person],
    marked: &Marked,
    traits: TraitSet,
) -> Cutoff
    requires kept { IsStepKept (holding list seats marked.now.matching.protections held.now) }
    requires needed { IsNeededOf list marked.now.matching.protections held.now
        marked.now.matching marked.now.needed }
    requires traits { IsTraitSet traits }
    ensures { IsCutoff (holding list seats marked.now.matching.protections held.now) traits result }
{
    if held.len() < seats as usize {
        return Cutoff::Anybody;
    }
    let Some(set) = marked.matching.replaceable_with(traits) else {
        return Cutoff::Anybody;
    };
    match last_spare(list, held, marked, set) {
        None => Cutoff::Nobody,
        Some(last) => Cutoff::UpTo { last },
    }
}
