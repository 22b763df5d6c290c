// The members, looked through one by one.
ghost use Rattle.std.specs.Prelude.{◌≡◌, ◌<◌, ◌↔◌, length, slice_index_or, true, IsTrue, MatchOption};
ghost use Rattle.std.specs.List.{remove};
ghost use Rattle.office_base.specs.Lists.{AnyByRecursion};
ghost use Rattle.office_base.specs.Person.{IsList, IsBetter};
ghost use Rattle.placements.specs.Ranks.{without};
ghost use Rattle.slot_matching.specs.Members.{IsWorstWithin, id_of};
ghost use Rattle.office_base.specs.declared.person.Person.{Person};

use office_base::{CandId, ListId, Person, TraitSet, better};
use placements::is_within;

/// Returns the place of the first member with this number, counted from 0. It is `Some`, since one of the members has
/// the number. Allocates nothing.
pub fn place_of(members: &[Person], cand: CandId) -> Option<usize>
    requires { AnyByRecursion (λ member. member.id ≡ cand) members.now }
    ensures { MatchOption result ⊥ (λ at. (at < length members.now)
        × (remove members.now at ≡ without cand members.now)
        × ((d : Person) → (slice_index_or members.now at d).id ≡ cand)) }
{
    for (at, member) in members.iter().enumerate() {
        if member.id == cand {
            return Some(at);
        }
    }
    None
}

/// The worst in merit of those members who hold no trait outside the set.
pub(crate) fn worst_within(members: &[Person], list: ListId, set: TraitSet) -> Option<Person>
    requires { IsList list }
    ensures { IsWorstWithin list set members.now result }
{
    let mut worst = None;
    for member in members {
        if is_within(member.traits, set) && is_next_worst(&worst, member, list) {
            worst = Some(*member);
        }
    }
    worst
}

/// Whether the member is worse than the worst so far, or is the first.
fn is_next_worst(worst: &Option<Person>, member: &Person, list: ListId) -> bool
    requires { IsList list }
    ensures { MatchOption worst.now (result ≡ true) (λ other.
        IsTrue result ↔ IsBetter list other member.now) }
{
    match worst {
        None => true,
        Some(other) => better(other, member, list),
    }
}

/// Returns the number of the person who was found, if there is one.
pub(crate) fn id_of(found: Option<Person>) -> Option<CandId>
    ensures { result ≡ id_of found }
{
    Some(found?.id)
}
