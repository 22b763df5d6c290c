// Programmes of 200 seats with protections that overlap, to each of which 10,000 candidates come one at a time.
// bench/offers counts the instructions of these offers.
ghost use Rattle.std.specs.Prelude.{◌≡◌, ◌≤◌, ◌<◌, ◌∷◌, IfOk, IsTrue, length};
ghost use Rattle.office_base.specs.Merit.{IsNewTo};
ghost use Rattle.office_base.specs.Person.{IsList};
ghost use Rattle.office_base.specs.Version.{IsVersion};
ghost use Rattle.open_then_category.specs.State.{nobody, admissions_of};
ghost use Rattle.programme_lists.specs.Chosen.{AreApplicants, everybody};
ghost use Rattle.seat_matrix.specs.Matrix.{seats_in};
ghost use Rattle.seat_matrix.specs.Seats.{AreProgrammeSeats};

use crate::candidates::{is_new, matrix_of};
use crate::programme_states::{Chooser, held_by, is_choice_of};
use office_base::{CandId, Category, ListId, OutOfMemory, Person, Place, ProgId, Steps, TraitSet};
use open_then_category::ProgrammeState;
use seat_matrix::Matrix;
use std::alloc::Global;
use std::marker::Brand;
use std::sync::ledger::{Blank, Ledger};

const CANDIDATES: u32 = 10_000;

// a prime, so that a stride spreads the places without repeating one
const PLACES: u32 = 20_011;

const ROWS: &str =
    "A,I1,1,OPEN,100,20,10,10\nA,I1,1,EWS,20,4,2\nA,I1,1,OBC,50,10,5,5\nA,I1,1,SC,20,4,2\nA,I1,1,ST,10,2\n";

const fn category_of(number: u32) -> Category {
    match number % 10 {
        0..=3 => Category::Gen,
        4 => Category::Ews,
        5..=7 => Category::Obc,
        8 => Category::Sc,
        _ => Category::St,
    }
}

const fn traits_of(number: u32) -> u8 {
    match number % 16 {
        0 => 1,
        1 => 2,
        2 => 4,
        3 => 3,
        4 => 5,
        5 => 6,
        6 => 7,
        _ => 0,
    }
}

// The candidate of this number, whose place the stride spreads over all places.
fn seeker(number: u32, stride: u32) -> Person
    requires { (number ≤ 10000) × (stride ≤ 20010) }
{
    let category = category_of(number);
    let spread = 1 + number * stride % PLACES;
    let place = if category != Category::Gen && number % 7 == 0 {
        Place::Relaxed(spread)
    } else {
        Place::Common(spread)
    };
    Person {
        id: CandId(number),
        category,
        traits: TraitSet(traits_of(number)),
        places: [place, Place::Absent, Place::Absent, Place::Absent],
    }
}

fn seekers(alloc: Global, stride: u32) -> Result<Vec<Person>, OutOfMemory>
    requires { stride ≤ 20010 }
{
    let mut people = Vec::new(alloc);
    for number in 0..CANDIDATES {
        people.push(seeker(number + 1, stride))?;
    }
    Ok(people)
}

// Offers a person who may apply together with those whom the programme admits. Those whom it admits then may apply
// together too.
fn offer_one<L: Ledger>(state: &mut ProgrammeState, steps: &mut Steps<L>, person: &Person)
    requires sound { AreProgrammeSeats state.old.seats }
    requires may { AreApplicants state.old.seats.list
        (person.now ∷ everybody (admissions_of state.old)) }
    ensures seats { state.new.seats ≡ state.old.seats }
    ensures may { AreApplicants state.old.seats.list (everybody (admissions_of state.new)) }
{
    open_then_category::laws::admitted_once();
    merit_choice::laws::part_can_be_ranked();
    state.offer(person, steps);
}

// Offers the person if nobody whom the programme admits has the number or the place. Returns whether it did.
fn offer_new<L: Ledger>(
    alloc: Global,
    list: ListId,
    state: &mut ProgrammeState,
    steps: &mut Steps<L>,
    person: &Person,
) -> Result<bool, OutOfMemory>
    requires list { IsList list }
    requires same { state.old.seats.list ≡ list }
    requires sound { AreProgrammeSeats state.old.seats }
    requires may { AreApplicants list (everybody (admissions_of state.old)) }
    ensures seats { state.new.seats ≡ state.old.seats }
    ensures may { AreApplicants list (everybody (admissions_of state.new)) }
{
    let held = held_by(alloc, state)?;
    if !is_new(list, held.as_slice(), person) {
        return Ok(false);
    }
    offer_one(state, steps, person);
    Ok(true)
}

// Offers all of the people.
fn offer_all<L: Ledger>(
    alloc: Global,
    list: ListId,
    state: &mut ProgrammeState,
    steps: &mut Steps<L>,
    people: &[Person],
) -> Result<bool, OutOfMemory>
    requires list { IsList list }
    requires same { state.old.seats.list ≡ list }
    requires sound { AreProgrammeSeats state.old.seats }
    requires may { AreApplicants list (everybody (admissions_of state.old)) }
{
    let mut all = true;
    for person in people {
        all &= offer_new(alloc, list, state, steps, person)?;
    }
    Ok(all)
}

// Offers all of the people, and returns whether the programme then holds the choice from all of them.
fn holds_choice_after<L: Ledger>(
    alloc: Global,
    chooser: &Chooser<'_>,
    state: &mut ProgrammeState,
    steps: &mut Steps<L>,
    people: &[Person],
) -> Result<bool, OutOfMemory>
    requires programme { chooser.now.prog.0 < length chooser.now.matrix.now.programmes }
    requires version { IsVersion chooser.now.version }
    requires seats { state.old.seats ≡ seats_in chooser.now.matrix.now chooser.now.prog.0 }
    requires nobody { (admissions_of state.old) ≡ nobody }
{
    let list = chooser.matrix.programme(chooser.prog).list;
    Ok(
        offer_all(alloc, list, state, steps, people)?
            && is_choice_of(alloc, chooser, people, state)?,
    )
}

// Whether the programme holds the choice from all people after they came.
fn holds_choice<L: Ledger>(
    alloc: Global,
    matrix: &Matrix,
    people: &[Person],
    blank: Blank,
) -> Result<bool, OutOfMemory>
    requires programme { 0 < length matrix.now.programmes }
    requires name { blank.name ≡ L.name }
    requires parts { blank.parts ≡ L.parts }
    requires some { 0 < blank.parts }
{
    let chooser = Chooser {
        version: 2,
        matrix,
        prog: ProgId(0),
    };
    let mut steps: Steps<L> = Steps::new(blank);
    let mut state = ProgrammeState::new(alloc, matrix, 2, ProgId(0))?;
    holds_choice_after(alloc, &chooser, &mut state, &mut steps, people)
}

// Whether the programme does from all candidates, spread by the stride.
fn holds_choice_at(alloc: Global, matrix: &Matrix, stride: u32) -> Result<bool, OutOfMemory>
    requires programme { 0 < length matrix.now.programmes }
    requires stride { stride ≤ 20010 }
{
    let people = seekers(alloc, stride)?;
    holds_choice::<Brand>(alloc, matrix, people.as_slice(), Blank::new(1))
}

// Whether it does at two strides.
fn holds_choices(alloc: Global) -> Result<bool, OutOfMemory> {
    match matrix_of(alloc, ROWS)? {
        Some(matrix) => Ok(
            matrix.count() == 1
                && holds_choice_at(alloc, &matrix, 7_919)?
                && holds_choice_at(alloc, &matrix, 12_345)?,
        ),
        None => Ok(false),
    }
}

#[test]
fn a_large_programme_holds_the_choice_from_all_who_came(rt: HostRuntime) {
    assert!(rt; holds_choices(rt.alloc()) == Ok(true));
}
