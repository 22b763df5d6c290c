// Who may fill seats that are open to all, and who fills those that a category left empty.
ghost use Rattle.std.specs.Prelude.{◌≡◌, IfOk, take};
ghost use Rattle.std.specs.List.{filter};
ghost use Rattle.office_base.specs.Person.{IsList, is_common};
ghost use Rattle.office_base.specs.StepChoice.{AreRanked};

use office_base::{ListId, OutOfMemory, People, Person, Place};
use std::alloc::Global;

/// Whether the person has a common place in the list.
pub fn is_common(person: &Person, list: ListId) -> bool
    requires { IsList list }
    ensures { result ≡ is_common list person.now }
{
    matches!(person.place(list), Place::Common(_))
}

/// Those of the people who have a common place in the list, in their order.
pub fn commons(alloc: Global, people: &[Person], list: ListId) -> Result<People, OutOfMemory>
    requires { IsList list }
    ensures { IfOk result (λ commons. commons ≡ filter (is_common list) people.now) }
{
    let mut commons = People::new(alloc);
    for person in people {
        if is_common(person, list) {
            commons.push(*person)?;
        }
    }
    Ok(commons)
}

/// The first of the people, as many as there are seats or people.
fn best(alloc: Global, people: &[Person], seats: u32) -> Result<People, OutOfMemory>
    ensures { IfOk result (λ best. best ≡ take seats people.now) }
{
    let count = people.len().min(seats as usize);
    let mut best = People::new(alloc);
    best.extend_from_slice(&people[..count])?;
    Ok(best)
}

/// Returns who fills de-reserved seats: the best of those with a common place in the list, as many as there are seats
/// or candidates. The rest, whom no earlier step took, are in merit order, and so are those who fill the seats.
pub fn fill(alloc: Global, rest: &[Person], list: ListId, seats: u32) -> Result<People, OutOfMemory>
    requires list { IsList list }
    requires ranked { AreRanked list rest.now }
    ensures { IfOk result (λ filled. filled ≡ take seats (filter (is_common list) rest.now)) }
{
    let candidates = commons(alloc, rest, list)?;
    best(alloc, candidates.as_slice(), seats)
}
