// Candidates, steps and programmes that the trials share.
ghost use Rattle.std.specs.Prelude.{◌≡◌, ◌≢◌, IsTrue};
ghost use Rattle.std.specs.List.{AllByRecursion};
ghost use Rattle.office_base.specs.Merit.{IsNewTo};
ghost use Rattle.office_base.specs.Person.{IsList, number_in};
ghost use Rattle.programme_lists.specs.Chosen.{AreApplicants};
ghost use Rattle.choice_trials.specs.Candidates.{general};

use office_base::{
    CandId, Category, ListId, OutOfMemory, People, Person, Place, Protections, Step, TraitSet,
};
use seat_matrix::Matrix;
use std::alloc::Global;

pub const W: u8 = 1;

pub const D: u8 = 2;

/// What a candidate is, but for the number.
#[derive(Clone, Copy)]
pub struct Kind {
    pub category: Category,
    pub traits: u8,
    pub common: bool,
}

pub const fn applicant(category: Category, traits: u8, common: bool) -> Kind {
    Kind {
        category,
        traits,
        common,
    }
}

/// A general candidate with the number as the common place in list 1.
pub fn candidate(number: u32, traits: u8) -> Person
    ensures { result ≡ general number traits }
{
    Person {
        id: CandId(number),
        category: Category::Gen,
        traits: TraitSet(traits),
        places: [
            Place::Common(number),
            Place::Absent,
            Place::Absent,
            Place::Absent,
        ],
    }
}

/// A candidate of this kind with the number as the place in list 1.
pub fn candidate_of(number: u32, kind: Kind) -> Person {
    let place = if kind.common {
        Place::Common(number)
    } else {
        Place::Relaxed(number)
    };
    Person {
        id: CandId(number),
        category: kind.category,
        traits: TraitSet(kind.traits),
        places: [place, Place::Absent, Place::Absent, Place::Absent],
    }
}

/// Candidates of these kinds in merit order, with the numbers and places 1, 2 and so on.
pub fn candidates_of(alloc: Global, kinds: &[Kind]) -> Result<People, OutOfMemory> {
    let mut people = People::new(alloc);
    for (number, kind) in (1..100).zip(kinds) {
        people.push(candidate_of(number, *kind))?;
    }
    Ok(people)
}

/// A step on list 1 of general candidates with these traits, in merit order, with the numbers and places 1, 2 and so on.
pub fn step_of(
    alloc: Global,
    seats: u16,
    protections: [u16; 3],
    traits: &[u8],
) -> Result<Step, OutOfMemory> {
    let mut people = People::new(alloc);
    for (number, traits) in (1..100).zip(traits) {
        people.push(candidate(number, *traits))?;
    }
    let [w, d, x] = protections;
    Ok(Step {
        list: ListId(1),
        seats,
        protections: Protections {
            counts: [w, d, x, 0, 0, 0],
        },
        people,
    })
}

/// A step on the list without seats, of these people.
pub fn step_without_seats(list: ListId, people: People) -> Step
    ensures { result.list ≡ list }
{
    Step {
        list,
        seats: 0,
        protections: Protections { counts: [0; 6] },
        people,
    }
}

/// Whether the people may apply to a programme of the list together.
pub fn may_all_apply(list: ListId, people: &[Person]) -> bool
    requires { IsList list }
    ensures { IsTrue result → AreApplicants list people.now }
{
    let [person, others @ ..] = people else {
        return true;
    };
    is_new(list, others, person) && may_all_apply(list, others)
}

/// Returns whether the person is none of these people and has a place in the list, so that a step that holds them may
/// be offered the person.
pub fn is_new(list: ListId, people: &[Person], person: &Person) -> bool
    requires { IsList list }
    ensures { IsTrue result → IsNewTo list people.now person.now }
{
    person.traits.0 < 64 && person.place(list).number().is_some() && is_apart(list, people, person)
}

// Whether none of these people has the person's number or place.
fn is_apart(list: ListId, people: &[Person], person: &Person) -> bool
    requires { IsList list }
    ensures { IsTrue result → AllByRecursion (λ other. person.now.id ≢ other.id) people.now
        × AllByRecursion (λ other. number_in list person.now ≢ number_in list other) people.now }
{
    let [other, others @ ..] = people else {
        return true;
    };
    person.id != other.id
        && person.place(list).number() != other.place(list).number()
        && is_apart(list, others, person)
}

/// The people in the order of this number, each order having one: 0 is from the last to the first.
pub fn in_order(
    alloc: Global,
    people: &[Person],
    number: usize,
) -> Result<Vec<Person>, OutOfMemory> {
    let mut order = Vec::new(alloc);
    let mut left = number;
    for person in people {
        let places = order.len() + 1;
        order.insert(left % places, *person)?;
        left /= places;
    }
    Ok(order)
}

/// The matrix of these rows, where they have no fault.
pub fn matrix_of(alloc: Global, rows: &str) -> Result<Option<Matrix>, OutOfMemory> {
    let text = format!(in alloc; "programme,institute,list,step,seats,W,D,X,S,F,L\n{rows}")?;
    Ok(Matrix::read(alloc, text.as_bytes()).ok())
}

/// Whether the people have these numbers, in this order.
pub fn are_people(people: &[Person], told: &[u32]) -> bool {
    people.len() == told.len()
        && people
            .iter()
            .zip(told)
            .all(|(person, number)| person.id.0 == *number)
}
