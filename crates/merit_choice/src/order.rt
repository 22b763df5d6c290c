// People in merit order, from any order.
ghost use Rattle.std.specs.Prelude.{◌≡◌, IfOk, length, vec_len};
ghost use Rattle.office_base.specs.Merit.{CanBeRanked, in_merit};
ghost use Rattle.office_base.specs.Person.{IsList};
ghost use Rattle.office_base.specs.StepChoice.{AreRanked};

use crate::laws::one_merit_order;
use office_base::{ListId, OutOfMemory, Person};
use std::alloc::Global;

/// Returns the people in merit order, the best first, in whatever order they come. Fails only when memory runs out.
pub fn in_merit_order(
    alloc: Global,
    people: &[Person],
    list: ListId,
) -> Result<Vec<Person>, OutOfMemory>
    requires list { IsList list }
    requires people { CanBeRanked list people.now }
    ensures order { IfOk result (λ ranked. ranked.items ≡ in_merit list people.now) }
    ensures ranked { IfOk result (λ ranked. AreRanked list ranked.items) }
    ensures len { IfOk result (λ ranked. vec_len ranked ≡ length people.now) }
{
    one_merit_order();
    let mut ranked = Vec::from_slice(alloc, people)?;
    ranked.sort_by_key(|person| person.place(list).number().unwrap_or(0))?;
    Ok(ranked)
}
