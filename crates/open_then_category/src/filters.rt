// The members of a category, and those who are left where some are taken.
ghost use Rattle.std.specs.Prelude.{◌≡◌, List, IfOk};
ghost use Rattle.std.specs.List.{filter};
ghost use Rattle.office_base.specs.Lists.{IsSublist};
ghost use Rattle.office_base.specs.StepChoice.{AreRanked};
ghost use Rattle.office_base.specs.declared.person.ListId.{ListId as AnyList};
ghost use Rattle.programme_lists.specs.Programme.{is_of, without};
ghost use Rattle.open_then_category.specs.Stepwise.{AreTaken, left_of};

use office_base::{Category, OutOfMemory, People, Person};
use programme_lists::StepList;
use std::alloc::Global;

/// Whether the person is of the category.
pub(crate) fn is_of(person: &Person, category: Category) -> bool
    ensures { result ≡ is_of category person.now }
{
    person.category == category
}

/// Those of the people who are of the category, in their order.
pub(crate) fn members(
    alloc: Global,
    people: &[Person],
    category: Category,
) -> Result<People, OutOfMemory>
    ensures { IfOk result (λ members. members ≡ filter (is_of category) people.now) }
{
    let mut members = People::new(alloc);
    for person in people {
        if is_of(person, category) {
            members.push(*person)?;
        }
    }
    Ok(members)
}

/// Returns the people without those taken, who are among them in the same order. Walks through both lists once.
pub(crate) fn without(
    alloc: Global,
    people: &[Person],
    taken: &[Person],
) -> Result<People, OutOfMemory>
    requires ranked { (list : AnyList) × AreRanked list people.now }
    requires taken { IsSublist taken.now people.now }
    ensures { IfOk result (λ left. left ≡ without people.now taken.now) }
{
    let mut left = People::new(alloc);
    let mut next = 0;
    for person in people {
        if next < taken.len() && taken[next].id == person.id {
            next += 1;
        } else {
            left.push(*person)?;
        }
    }
    Ok(left)
}

/// Returns those of the people whom none of these lists admits. The persons of each list are among the people, in their
/// order, and in no other list.
pub(crate) fn left_over(
    alloc: Global,
    people: &[Person],
    lists: &[StepList],
) -> Result<People, OutOfMemory>
    requires ranked { (list : AnyList) × AreRanked list people.now }
    requires taken { AreTaken people.now lists.now }
    ensures { IfOk result (λ left. left ≡ left_of people.now lists.now) }
{
    let mut left = People::new(alloc);
    left.extend_from_slice(people)?;
    for list in lists {
        left = without(alloc, left.as_slice(), list.admitted.as_slice())?;
    }
    Ok(left)
}
