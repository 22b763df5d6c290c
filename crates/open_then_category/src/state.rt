// The choice of a programme from applicants who come one at a time.
ghost use Rattle.std.specs.Prelude.{◌≡◌, ◌≤◌, ◌<◌, ◌+◌, [], ◌∷◌, Some, length, map, take, slice_get, vec_len, vec_capacity, IfOk};
ghost use Rattle.std.specs.List.{AllByRecursion};
ghost use Rattle.office_base.specs.Limits.{most_step_seats};
ghost use Rattle.office_base.specs.Merit.{IsNewTo};
ghost use Rattle.office_base.specs.Person.{IsList, is_common};
ghost use Rattle.office_base.specs.StepChoice.{AreRanked};
ghost use Rattle.office_base.specs.Version.{IsVersion};
ghost use Rattle.office_base.specs.declared.person.Person.{Person as AnyPerson};
ghost use Rattle.seat_matrix.specs.Matrix.{seats_in};
ghost use Rattle.seat_matrix.specs.Seats.{AreProgrammeSeats};
ghost use Rattle.programme_lists.specs.Chosen.{AreApplicants, ChoosesFrom, everybody};
ghost use Rattle.programme_lists.specs.Programme.{is_of};
ghost use Rattle.open_then_category.specs.State.{AreHanded, AreNew, ChoosesOn, IsAnswered, IsLastOffer, IsOffer, IsProgrammeKept, admissions_of, categories_kept, empty_programme, nobody, step_kept};

use crate::filters::is_of;
use crate::laws::{offers_keep_choices, offers_leave_one, resumes, step_laws};
use dereserve::{is_common, left_unfilled};
use merit_choice::{Offered, StepState, put_in_order};
use office_base::{
    CATEGORY_COUNT, CATEGORY_STEPS, Category, CategoryStep, ListId, OWN_COUNT, OutOfMemory, Person,
    ProgId, StepKind, Steps, step_number,
};
use seat_matrix::{Matrix, ProgrammeSeats};
use std::alloc::Global;
use std::marker::Model;
use std::sync::ledger::Ledger;

/// The seats of a programme, and whom each step admits of all who were offered so far.
#[derive(Drop)]
pub struct ProgrammeState {
    version: u8,
    seats: ProgrammeSeats,
    open_step: StepState,
    /// By the rows of the categories.
    categories: [StepState; CATEGORY_COUNT],
    dereserved: Vec<Person>,
}

impl Model for ProgrammeState {
    ghost use Rattle.std.specs.Prelude.{vec_capacity};
    ghost use Rattle.open_then_category.specs.State.{ProgrammeKept, IsStateKept, people_held};

    ghost Value = { ProgrammeKept };

    ghost view = { λ a. record { version = a.version; seats = a.seats; held = people_held a.open_step a.categories a.dereserved.items } };

    ghost invariant = { λ a. IsStateKept (record { version = a.version; seats = a.seats; held = people_held a.open_step a.categories a.dereserved.items }) a.open_step a.categories (vec_capacity a.dereserved) };
}

impl ProgrammeState {
    /// A programme that admits nobody. It takes all its room now, so that no later call takes memory.
    pub fn new(
        alloc: Global,
        matrix: &Matrix,
        version: u8,
        prog: ProgId,
    ) -> Result<ProgrammeState, OutOfMemory>
        requires programme { prog.0 < length matrix.now.programmes }
        requires version { IsVersion version }
        ensures { IfOk result (λ state.
            state ≡ empty_programme version (seats_in matrix.now prog.0)) }
    {
        step_laws();
        let seats = matrix.programme(prog);
        let most = left_unfilled(version, &seats.steps, &[0; OWN_COUNT]);
        let dereserved = Vec::with_capacity(alloc, most as usize + 1)?;
        let open_step = step_state(alloc, &seats, StepKind::Open)?;
        let categories = category_states(alloc, &seats)?;
        Ok(ProgrammeState {
            version,
            seats,
            open_step,
            categories,
            dereserved,
        })
    }

    /// Offers the person to the programme, which then admits the choice from those whom it admitted and the person.
    /// So after any offers it admits the choice from all who were offered. Allocates nothing, and counts one step.
    pub fn offer<L: Ledger>(&mut self, person: &Person, steps: &mut Steps<L>) -> Offered
        requires { AreApplicants self.old.seats.list (person.now ∷ everybody (admissions_of self.old)) }
        // the version and the seats stay
        ensures stays { self.new ≡ record self.old { held = self.new.held } }
        ensures choice { ChoosesFrom self.old.version self.old.seats
            (person.now ∷ everybody (admissions_of self.old)) (admissions_of self.new) }
        ensures all { ChoosesOn person.now self.old self.new }
        ensures answer { IsAnswered self.old person.now result self.new }
        ensures cost { steps.new ≡ steps.old + 1 }
    {
        step_laws();
        offers_keep_choices();
        offers_leave_one();
        resumes();
        steps.tick();
        let list = self.seats.list;
        let by_open = hand_common(&mut self.open_step, list, person);
        let coming = hand_down(&CATEGORY_STEPS, &mut self.categories, by_open);
        let held = held_by_steps(&self.open_step, &self.categories);
        let empty = left_unfilled(self.version, &self.seats.steps, &held);
        match keep_best(&mut self.dereserved, list, coming, empty) {
            None => Offered::Taken,
            Some(gone) => {
                if gone.id == person.id {
                    Offered::Refused
                } else {
                    Offered::Displaced(gone.id)
                }
            }
        }
    }

    /// Returns those whom a step admits, in merit order. Allocates nothing.
    pub fn admitted(&self, kind: StepKind) -> &[Person]
        ensures { result.now ≡ admissions_of self.now kind }
    {
        let number = usize::from(step_number(kind));
        if number == 0 {
            return self.open_step.admitted();
        }
        match self.categories.get(number - 1) {
            Some(step) => step.admitted(),
            None => self.dereserved.as_slice(),
        }
    }

    /// The seats of the programme.
    pub(crate) fn programme_seats(&self) -> &ProgrammeSeats
        ensures seats { result.now ≡ self.now.seats }
        ensures kept { IsProgrammeKept self.now }
    {
        &self.seats
    }

    /// The version of the bundle.
    pub(crate) fn bundle_version(&self) -> u8
        ensures { result ≡ self.now.version }
    {
        self.version
    }
}

/// The steps of the categories of a programme, which hold nobody, in the order of their rows.
fn category_states(
    alloc: Global,
    seats: &ProgrammeSeats,
) -> Result<[StepState; CATEGORY_COUNT], OutOfMemory>
    requires { AreProgrammeSeats seats.now }
    ensures { IfOk result (λ states. states ≡ categories_kept seats.now nobody) }
{
    let mut states = Vec::with_capacity(alloc, CATEGORY_COUNT)?;
    for row in CATEGORY_STEPS {
        let state = step_state(alloc, seats, row.step)?;
        states.push(state)?;
    }
    match <[StepState; CATEGORY_COUNT]>::try_from(states) {
        Ok(states) => Ok(states),
        Err(_) => unreachable!("each row has a state"),
    }
}

/// A step of a programme that holds nobody.
fn step_state(
    alloc: Global,
    seats: &ProgrammeSeats,
    kind: StepKind,
) -> Result<StepState, OutOfMemory>
    requires { AreProgrammeSeats seats.now }
    ensures { IfOk result (λ step. step ≡ step_kept seats.now kind []) }
{
    let seating = seats.of(kind);
    StepState::new(alloc, seats.list, seating.seats, seating.protections)
}

/// How many each of the steps with seats of its own holds, by the number of the step.
fn held_by_steps(
    open_step: &StepState,
    categories: &[StepState; CATEGORY_COUNT],
) -> [u16; OWN_COUNT]
    requires open { open_step.now.seats ≤ most_step_seats }
    requires categories { AllByRecursion (λ step. step.seats ≤ most_step_seats) categories.now }
    ensures { result ≡ length open_step.now.held ∷ map (λ step. length step.held) categories.now }
{
    let mut held = [open_step.admitted().len() as u16; OWN_COUNT];
    for i in 0..categories.len() {
        held[i + 1] = categories[i].admitted().len() as u16;
    }
    held
}

/// Hands the person to a step for those with a common place. Returns who continues to the next step.
fn hand_common(step: &mut StepState, list: ListId, person: &Person) -> Option<Person>
    requires list { IsList list }
    requires new { IsNewTo step.old.list step.old.held person.now }
    ensures stays { step.new ≡ record step.old { held = step.new.held } }
    ensures offered { IsOffer (is_common list) step.old (Some person.now) result step.new.held }
{
    if !is_common(person, list) {
        return Some(*person);
    }
    step.hand(person)
}

/// Offers the person who comes to the step of a category, if the person is a member. Returns who continues to the
/// next step.
fn hand_member(step: &mut StepState, category: Category, coming: Option<Person>) -> Option<Person>
    requires { (person : AnyPerson) → coming ≡ Some person
        → IsNewTo step.old.list step.old.held person }
    ensures stays { step.new ≡ record step.old { held = step.new.held } }
    ensures offered { IsOffer (is_of category) step.old coming result step.new.held }
{
    let Some(person) = coming else {
        return None;
    };
    if !is_of(&person, category) {
        return Some(person);
    }
    step.hand(&person)
}

/// Offers the person who comes to the steps of these rows in their order: who is left out by one continues to the next.
/// Returns who continues after the last.
fn hand_down(
    rows: &[CategoryStep; CATEGORY_COUNT],
    categories: &mut [StepState; CATEGORY_COUNT],
    coming: Option<Person>,
) -> Option<Person>
    requires { AreNew rows.now categories.old coming }
    ensures { AreHanded rows.now categories.old categories.new coming result }
{
    let mut coming = coming;
    for i in 0..rows.len() {
        let row = &rows[i];
        coming = hand_member(&mut categories[i], row.category, coming);
    }
    coming
}

/// Keeps the best on the seats, including the person who comes if that person has a common place. Returns who is left
/// without a seat: at most one person.
fn keep_best(
    people: &mut Vec<Person>,
    list: ListId,
    coming: Option<Person>,
    seats: u32,
) -> Option<Person>
    requires list { IsList list }
    requires ranked { AreRanked list people.old.items }
    requires new { (person : AnyPerson) → coming ≡ Some person
        → IsNewTo list people.old.items person }
    requires room { vec_len people.old < vec_capacity people.old }
    requires few { length people.old.items ≤ seats + 1 }
    requires free { (person : AnyPerson) → coming ≡ Some person → length people.old.items ≤ seats }
    ensures last { IsLastOffer list seats people.old.items coming result people.new.items }
    ensures room { vec_capacity people.old ≤ vec_capacity people.new }
{
    let Some(person) = coming else {
        return drop_last(people, seats);
    };
    // nobody is kept on no seats
    if seats == 0 || !is_common(&person, list) {
        return Some(person);
    }
    put_in_order(people, &person, list);
    drop_last(people, seats)
}

/// The person for whom there is no seat leaves.
fn drop_last(people: &mut Vec<Person>, seats: u32) -> Option<Person>
    requires { length people.old.items ≤ seats + 1 }
    ensures items { people.new.items ≡ take seats people.old.items }
    ensures out { result ≡ slice_get people.old.items seats }
    ensures room { vec_capacity people.old ≤ vec_capacity people.new }
{
    if people.len() <= seats as usize {
        return None;
    }
    let gone = people.remove(seats as usize);
    Some(gone)
}
