// Whether seats, protections and people are a step.
ghost use Rattle.std.specs.Prelude.{◌≡◌, ◌≢◌, ◌≤◌, ◌*◌, ◌↔◌, IsTrue, sum};
ghost use Rattle.std.specs.List.{AllByRecursion};
ghost use Rattle.office_base.specs.Person.{IsList, IsBetter};
ghost use Rattle.office_base.specs.StepChoice.{IsStep, AreRanked};

use office_base::{ListId, Person, Protections, Step, better};

/// Whether this is a step: a merit list, ranked people, and no more protected positions than seats.
pub fn is_step(step: &Step) -> bool
    ensures { IsTrue result ↔ IsStep step.now }
{
    (1..=4).contains(&step.list.0)
        && are_ranked(step.list, step.people.as_slice())
        && protected_seats(&step.protections) <= u32::from(step.seats)
}

/// Whether the people are distinct persons with a place in the list, each better than all who follow.
fn are_ranked(list: ListId, people: &[Person]) -> bool
    requires { IsList list }
    ensures { IsTrue result ↔ AreRanked list people.now }
{
    let [person, others @ ..] = people else {
        return true;
    };
    person.traits.0 < 64
        && person.place(list).number().is_some()
        && is_ahead_of_all(list, person, others)
        && are_ranked(list, others)
}

/// Whether the person is better than each of the others, and none of them.
fn is_ahead_of_all(list: ListId, person: &Person, others: &[Person]) -> bool
    requires { IsList list }
    ensures { IsTrue result ↔ (AllByRecursion (IsBetter list person.now) others.now
        × AllByRecursion (λ other. person.now.id ≢ other.id) others.now) }
{
    let [other, rest @ ..] = others else {
        return true;
    };
    better(person, other, list) && person.id != other.id && is_ahead_of_all(list, person, rest)
}

/// The protected positions of all traits.
fn protected_seats(protections: &Protections) -> u32
    ensures { result ≡ sum protections.now.counts }
{
    let mut seats = 0;
    for count in protections.counts {
        seats += u32::from(count);
    }
    seats
}
