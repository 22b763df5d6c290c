// Who is named and is not one of the people, or is out of order.
ghost use Rattle.std.specs.Prelude.{◌≡◌, ◌≤◌, ◌<◌, MatchOption, Some, drop, length, slice_get};
ghost use Rattle.office_base.specs.Lists.{IsAmong};
ghost use Rattle.office_base.specs.StepChoice.{AreRanked};
ghost use Rattle.placements.specs.Ranks.{AreDistinct};
ghost use Rattle.list_audit.specs.Outside.{IsOutside};

use crate::same::same_person;
use office_base::{CandId, ListId, Person};

/// Returns the first place from this one on at which the person is.
fn place_from(people: &[Person], from: usize, person: &Person) -> Option<usize>
    requires { from ≤ length people.now }
    ensures { MatchOption result (IsAmong person.now (drop from people.now) → ⊥) (λ at. (from ≤ at)
        × (at < length people.now) × (slice_get people.now at ≡ Some person.now)) }
{
    for at in from..people.len() {
        if same_person(person, &people[at]) {
            return Some(at);
        }
    }
    None
}

/// Returns the first of those named who is not one of the people, with all fields equal, or is better than the one
/// named before. Walks through both lists once.
pub(crate) fn first_outside(list: ListId, people: &[Person], named: &[Person]) -> Option<CandId>
    requires ranked { AreRanked list people.now }
    requires once { AreDistinct named.now }
    ensures { IsOutside list people.now named.now result }
{
    let mut next = 0;
    for person in named {
        match place_from(people, next, person) {
            Some(at) => next = at + 1,
            None => return Some(person.id),
        }
    }
    None
}
