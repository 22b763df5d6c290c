// Who competes for the seats of a step, of those whom the steps before left.
ghost use Rattle.std.specs.Prelude.{◌≡◌, List, IfOk, map};
ghost use Rattle.std.specs.List.{filter};
ghost use Rattle.office_base.specs.Lists.{IsAmong, IsSublist};
ghost use Rattle.office_base.specs.Person.{IsList};
ghost use Rattle.office_base.specs.StepChoice.{AreRanked};
ghost use Rattle.office_base.specs.CategorySteps.{category_steps, row_of};
ghost use Rattle.office_base.specs.declared.category_steps.CategoryStep.{CategoryStep as AnyRow};
ghost use Rattle.office_base.specs.declared.person.ListId.{ListId as AnyList};
ghost use Rattle.programme_lists.specs.Programme.{is_of, left_by, without};
ghost use Rattle.list_audit.specs.Clauses.{named_by};
ghost use Rattle.list_audit.specs.Stand.{is_member, stands_for};

use crate::numbers::list_of;
use crate::same::same_category;
use office_base::{
    CATEGORY_STEPS, ListId, OutOfMemory, People, Person, Place, StepKind, step_number,
};
use programme_lists::Programme;
use std::alloc::Global;

/// Whether the person is a member of the category whose seats the step fills.
fn is_member(person: &Person, kind: StepKind) -> bool
    ensures { result ≡ is_member (row_of kind) person.now }
{
    for row in CATEGORY_STEPS {
        if step_number(kind) == step_number(row.step) {
            return same_category(row.category, person.category);
        }
    }
    false
}

/// Whether the person may have the seats of a step: open and de-reserved ones are for those with a common place in the list, and a category's for
/// its members.
fn stands_for(person: &Person, list: ListId, kind: StepKind) -> bool
    requires { IsList list }
    ensures { result ≡ stands_for list kind person.now }
{
    match kind {
        StepKind::Open => matches!(person.place(list), Place::Common(_)),
        StepKind::Dereserved => matches!(person.place(list), Place::Common(_)),
        _ => is_member(person, kind),
    }
}

/// Those of the people who may have the seats of a step, in their order.
pub(crate) fn standing(
    alloc: Global,
    people: &[Person],
    list: ListId,
    kind: StepKind,
) -> Result<People, OutOfMemory>
    requires { IsList list }
    ensures { IfOk result (λ some. some ≡ filter (stands_for list kind) people.now) }
{
    let mut some = People::new(alloc);
    for person in people {
        if stands_for(person, list, kind) {
            some.push(*person)?;
        }
    }
    Ok(some)
}

/// Returns the people without those taken, who are among them in the same order. Walks through both lists once.
/// `open_then_category` has a copy of this function. The audit keeps its own, so that it shares no code with the choice
/// that it checks.
pub(crate) fn without(
    alloc: Global,
    people: &[Person],
    taken: &[Person],
) -> Result<People, OutOfMemory>
    requires ranked { (list : AnyList) × AreRanked list people.now }
    requires taken { IsSublist taken.now people.now }
    ensures { IfOk result (λ left. left ≡ without people.now taken.now) }
{
    let mut left = People::new(alloc);
    let mut next = 0;
    for person in people {
        if next < taken.len() && taken[next].id == person.id {
            next += 1;
        } else {
            left.push(*person)?;
        }
    }
    Ok(left)
}

/// Returns those of the rest whom no category took. The persons of each category are members among the rest, in its
/// order. This is the audit's own function too, as `without` is.
pub(crate) fn left_over(
    alloc: Global,
    rest: &[Person],
    programme: &Programme,
) -> Result<People, OutOfMemory>
    requires ranked { (list : AnyList) × AreRanked list rest.now }
    requires members { (row : AnyRow) → IsAmong row category_steps
        → IsSublist (named_by programme.now row.step) (filter (is_of row.category) rest.now) }
    ensures { IfOk result (λ left. left
        ≡ left_by (map (λ row. row.step) category_steps) rest.now (named_by programme.now)) }
{
    let mut left = People::new(alloc);
    left.extend_from_slice(rest)?;
    for row in CATEGORY_STEPS {
        let named = list_of(programme, row.step).admitted.as_slice();
        left = without(alloc, left.as_slice(), named)?;
    }
    Ok(left)
}
