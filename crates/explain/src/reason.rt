// The reason of one person at one programme.
ghost use Rattle.std.specs.Prelude.{◌≡◌, ◌<◌, Option, length};
ghost use Rattle.std.specs.List.{AllByRecursion, list_any};
ghost use Rattle.office_base.specs.Merit.{is_ahead};
ghost use Rattle.office_base.specs.Person.{IsList, number_in};
ghost use Rattle.programme_lists.specs.Programme.{is_taken};
ghost use Rattle.seat_matrix.specs.Matrix.{list_in};
ghost use Rattle.explain.specs.Reason.{admitted_in, category_step, has_worse, reason_of, refusal, why_at};

use dereserve::is_common;
use office_base::{
    CATEGORY_STEPS, Category, ListId, Person, ProgId, SeatKind, StepKind, step_number,
};
use programme_lists::{Programme, StepList};
use reasons::{Reason, StepWhy};
use seat_matrix::Matrix;

/// Returns under which step the programme admits the person, or what counted against the person at each step for
/// whose seats the person competed. Allocates nothing.
pub fn why(matrix: &Matrix, prog: ProgId, programme: &Programme, person: &Person) -> Reason
    requires { prog.0 < length matrix.now.programmes }
    ensures reason { result ≡ reason_of (list_in matrix.now prog.0) programme.now person.now }
{
    let list = matrix.programme(prog).list;
    match admitted_in(&programme.steps, person) {
        Some(step) => Reason::Admitted(SeatKind::Under(step)),
        None => refusal(list, programme, person),
    }
}

/// Returns what counted against the person at each step.
fn refusal(list: ListId, programme: &Programme, person: &Person) -> Reason
    requires { IsList list }
    ensures { result ≡ refusal list programme.now person.now }
{
    let common = is_common(person, list);
    Reason::Refused {
        at_open: if common {
            why_at(list, programme, person, StepKind::Open)
        } else {
            None
        },
        at_category: match category_step(person.category) {
            Some(kind) => why_at(list, programme, person, kind),
            None => None,
        },
        at_dereserved: if common {
            why_at(list, programme, person, StepKind::Dereserved)
        } else {
            None
        },
    }
}

/// Returns what counted against the person at a step.
fn why_at(list: ListId, programme: &Programme, person: &Person, kind: StepKind) -> Option<StepWhy>
    requires { IsList list }
    ensures { result ≡ why_at list programme.now person.now kind }
{
    let shown = programme.steps.get(usize::from(step_number(kind)))?;
    Some(StepWhy {
        kind: shown.kind,
        seats: shown.seats,
        worse: has_worse(list, person, shown.admitted.as_slice()),
    })
}

/// Returns the step of a category, if it has one.
fn category_step(category: Category) -> Option<StepKind>
    ensures { result ≡ category_step category }
{
    for row in CATEGORY_STEPS {
        if row.category == category {
            return Some(row.step);
        }
    }
    None
}

/// Whether somebody admitted is worse in merit than the person.
fn has_worse(list: ListId, person: &Person, admitted: &[Person]) -> bool
    requires { IsList list }
    ensures { result ≡ has_worse list person.now admitted.now }
{
    let own = person.place(list).number();
    for other in admitted {
        if is_ahead(own, other.place(list).number()) {
            return true;
        }
    }
    false
}

/// Whether both numbers are there and the first is smaller.
fn is_ahead(first: Option<u32>, second: Option<u32>) -> bool
    ensures { result ≡ is_ahead first second }
{
    match (first, second) {
        (Some(m), Some(n)) => m < n,
        _ => false,
    }
}

/// The step whose list has the person.
fn admitted_in(lists: &[StepList], person: &Person) -> Option<StepKind>
    ensures { result ≡ admitted_in lists.now person.now }
{
    for list in lists {
        if is_taken(list.admitted.as_slice(), person) {
            return Some(list.kind);
        }
    }
    None
}

/// Whether the person is one of those taken.
fn is_taken(taken: &[Person], person: &Person) -> bool
    ensures { result ≡ is_taken taken.now person.now }
{
    for other in taken {
        if other.id == person.id {
            return true;
        }
    }
    false
}
