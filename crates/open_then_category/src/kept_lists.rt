// The lists of a programme that keeps the choice from all who came, by how many came.
ghost use Rattle.std.specs.Prelude.{◌≡◌, ◌≤◌, ◌<◌, [], List, IfOk, length, map};
ghost use Rattle.std.specs.List.{AllByRecursion, filter};
ghost use Rattle.office_base.specs.CategorySteps.{category_steps, own_steps};
ghost use Rattle.office_base.specs.Person.{IsList, IsTraitSet, is_common};
ghost use Rattle.office_base.specs.declared.person.Person.{Person as AnyPerson};
ghost use Rattle.placements.specs.Ranks.{AreDistinct};
ghost use Rattle.office_base.specs.Limits.{most_step_seats};
ghost use Rattle.office_base.specs.declared.step.StepKind.TheVariants.{Open as OpenStep, Dereserved as DereservedStep};
ghost use Rattle.programme_lists.specs.Chosen.{ShowsFrom};
ghost use Rattle.programme_lists.specs.Listing.{Shows};
ghost use Rattle.programme_lists.specs.Programme.{is_of};
ghost use Rattle.open_then_category.specs.State.{IsProgrammeKept, admissions_of};
ghost use Rattle.open_then_category.specs.Tried.{AreCounted, HaveCome, ShowCategories, ShowsCategory, ShowsDereserved, ShowsOpen, common_taken, counted, with_member, with_one};

use crate::choice::programme_of;
use crate::filters::is_of;
use crate::laws::step_laws;
use crate::state::ProgrammeState;
use dereserve::{is_common, left_unfilled};
use office_base::{
    CATEGORY_COUNT, CATEGORY_STEPS, Category, CategoryStep, ListId, OWN_COUNT, OWN_STEPS,
    OutOfMemory, People, Person, Protections, STEP_COUNT, StepKind,
};
use programme_lists::{Programme, StepList};
use slot_cert::{Cert, canonical_pairs};
use std::alloc::Global;

/// How many came to a programme of a list: those with a common place there, and the members of each category that has
/// seats of its own.
#[derive(Clone, Copy)]
pub struct Tried {
    pub list: ListId,
    pub common: u32,
    /// By the rows of the categories.
    pub members: [u32; CATEGORY_COUNT],
}

impl Tried {
    /// Nobody came.
    pub fn new(list: ListId) -> Tried
        ensures { result ≡ counted list [] }
    {
        Tried {
            list,
            common: 0,
            members: [0; CATEGORY_COUNT],
        }
    }

    /// The person came too.
    pub fn add(&mut self, person: &Person)
        requires list { IsList self.old.list }
        requires common { self.old.common < 4294967295 }
        requires members { AllByRecursion (λ count. count < 4294967295) self.old.members }
        ensures { self.new ≡ with_one person.now self.old }
    {
        if is_common(person, self.list) {
            self.common += 1;
        }
        count_member(&CATEGORY_STEPS, &mut self.members, person);
    }
}

/// The person is counted for each row whose category the person is of.
fn count_member(
    rows: &[CategoryStep; CATEGORY_COUNT],
    members: &mut [u32; CATEGORY_COUNT],
    person: &Person,
)
    requires { AllByRecursion (λ count. count < 4294967295) members.old }
    ensures { members.new ≡ with_member person.now rows.now members.old }
{
    for i in 0..rows.len() {
        let row = &rows[i];
        members[i] += u32::from(is_of(person, row.category));
    }
}

/// How many of the people have a common place in the list.
fn count_common(people: &[Person], list: ListId) -> u32
    requires list { IsList list }
    requires few { length people.now ≤ most_step_seats }
    ensures count { result ≡ length (filter (is_common list) people.now) }
    ensures few { result ≤ most_step_seats }
{
    let mut count = 0;
    for person in people {
        if is_common(person, list) {
            count += 1;
        }
    }
    count
}

/// How many of the people are of the category.
fn count_members(people: &[Person], category: Category) -> u32
    requires { length people.now ≤ most_step_seats }
    ensures { result ≡ length (filter (is_of category) people.now) }
{
    let mut count = 0;
    for person in people {
        if is_of(person, category) {
            count += 1;
        }
    }
    count
}

/// Returns the list of a step that admits these persons, who are in merit order, from that many people.
fn list_of(
    alloc: Global,
    kind: StepKind,
    seats: u32,
    protections: &Protections,
    candidates: u32,
    admitted: &[Person],
) -> Result<StepList, OutOfMemory>
    requires distinct { AreDistinct admitted.now }
    requires traits { AllByRecursion (λ person. IsTraitSet person.traits) admitted.now }
    ensures { IfOk result (λ list. (people : List AnyPerson) → length people ≡ candidates
        → Shows kind seats protections.now people admitted.now list) }
{
    let pairs = canonical_pairs(alloc, admitted, protections)?;
    let mut persons = People::with_capacity(alloc, admitted.len())?;
    persons.extend_from_slice(admitted)?;
    Ok(StepList {
        kind,
        seats,
        candidates,
        admitted: persons,
        cert: Cert { pairs },
    })
}

/// Returns the list of the open step: all with a common place who came competed for its seats.
fn open_list(alloc: Global, state: &ProgrammeState, came: u32) -> Result<StepList, OutOfMemory>
    requires distinct { AreDistinct (admissions_of state.now OpenStep) }
    requires traits { AllByRecursion (λ person. IsTraitSet person.traits)
        (admissions_of state.now OpenStep) }
    ensures { IfOk result (ShowsOpen state.now came) }
{
    let seats = state.programme_seats().of(StepKind::Open);
    list_of(
        alloc,
        StepKind::Open,
        u32::from(seats.seats),
        &seats.protections,
        came,
        state.admitted(StepKind::Open),
    )
}

/// Returns the list of a category's step: of the members who came, those whom the open step did not take competed for
/// its seats.
fn category_list(
    alloc: Global,
    state: &ProgrammeState,
    row: CategoryStep,
    came: u32,
) -> Result<StepList, OutOfMemory>
    requires distinct { AreDistinct (admissions_of state.now row.step) }
    requires traits { AllByRecursion (λ person. IsTraitSet person.traits)
        (admissions_of state.now row.step) }
    requires few { length (filter (is_of row.category) (admissions_of state.now OpenStep)) ≤ came }
    ensures { IfOk result (ShowsCategory state.now row came) }
{
    let seats = state.programme_seats().of(row.step);
    let candidates = came - count_members(state.admitted(StepKind::Open), row.category);
    list_of(
        alloc,
        row.step,
        u32::from(seats.seats),
        &seats.protections,
        candidates,
        state.admitted(row.step),
    )
}

/// Returns the lists of the categories' steps, in the order of their rows.
fn category_lists(
    alloc: Global,
    state: &ProgrammeState,
    members: &[u32; CATEGORY_COUNT],
) -> Result<Vec<StepList>, OutOfMemory>
    requires { AreCounted state.now category_steps members.now }
    ensures { IfOk result (λ lists.
        ShowCategories state.now category_steps members.now lists.items) }
{
    // with room for the lists of the other steps
    let mut lists = Vec::with_capacity(alloc, STEP_COUNT)?;
    for i in 0..CATEGORY_STEPS.len() {
        let list = category_list(alloc, state, CATEGORY_STEPS[i], members[i])?;
        lists.push(list)?;
    }
    Ok(lists)
}

/// How many of those whom the steps before the de-reserved one admit have a common place.
fn count_taken(state: &ProgrammeState) -> u32
    ensures { result ≡ common_taken state.now.seats.list (admissions_of state.now) }
{
    let list = state.programme_seats().list;
    let mut taken = count_common(state.admitted(StepKind::Open), list);
    for row in CATEGORY_STEPS {
        taken += count_common(state.admitted(row.step), list);
    }
    taken
}

/// How many each of the steps with seats of its own admits, by the number of the step.
fn count_all_held(state: &ProgrammeState) -> [u16; OWN_COUNT]
    requires { IsProgrammeKept state.now }
    ensures { result ≡ map (λ kind. length (admissions_of state.now kind)) own_steps }
{
    let mut held = [0; OWN_COUNT];
    for i in 0..OWN_STEPS.len() {
        held[i] = state.admitted(OWN_STEPS[i]).len() as u16;
    }
    held
}

/// Returns the list of the de-reserved step: of those with a common place who came, those whom no step before took
/// competed for the seats that categories left empty.
fn last_list(alloc: Global, state: &ProgrammeState, came: u32) -> Result<StepList, OutOfMemory>
    requires distinct { AreDistinct (admissions_of state.now DereservedStep) }
    requires traits { AllByRecursion (λ person. IsTraitSet person.traits)
        (admissions_of state.now DereservedStep) }
    requires few { common_taken state.now.seats.list (admissions_of state.now) ≤ came }
    ensures { IfOk result (λ list. ShowsDereserved state.now came list) }
{
    let seats = state.programme_seats();
    let empty = left_unfilled(state.bundle_version(), &seats.steps, &count_all_held(state));
    let candidates = came - count_taken(state);
    let none = Protections { counts: [0; 6] };
    let admitted = state.admitted(StepKind::Dereserved);
    list_of(
        alloc,
        StepKind::Dereserved,
        empty,
        &none,
        candidates,
        admitted,
    )
}

/// Returns the lists of a programme that keeps the choice from all who came, by how many came. They are the very
/// lists of `programme_choice` from these people, made without going through them again. The only error is that
/// memory runs out; it leaves nothing.
pub fn lists_of(
    alloc: Global,
    state: &ProgrammeState,
    tried: &Tried,
) -> Result<Programme, OutOfMemory>
    requires { (people : List AnyPerson) × HaveCome state.now tried.now people }
    ensures { IfOk result (λ programme. (people : List AnyPerson) → HaveCome state.now
        tried.now people → ShowsFrom state.now.version state.now.seats people programme) }
{
    step_laws();
    let first = open_list(alloc, state, tried.common)?;
    let lists = category_lists(alloc, state, &tried.members)?;
    let last = last_list(alloc, state, tried.common)?;
    programme_of(first, lists, last)
}
