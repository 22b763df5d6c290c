// The choice of a step from people who come one at a time.
ghost use Rattle.std.specs.Prelude.{◌≡◌, ◌≤◌, ◌<◌, [], ◌∷◌, Some, length, sum, vec_len, vec_capacity, IfOk};
ghost use Rattle.std.specs.List.{insert};
ghost use Rattle.office_base.specs.Person.{IsList};
ghost use Rattle.office_base.specs.StepChoice.{AreRanked, IsStepChoice};
ghost use Rattle.slot_matching.specs.Replaceable.{IsReplaceable};
ghost use Rattle.merit_choice.specs.InMerit.{IsNewTo, with_person};
ghost use Rattle.merit_choice.specs.State.{HandsOn, IsStepKept, step_with, IsAnswered, IsMatched};

use crate::held::{last_within, leave, place_for, put};
use office_base::{CandId, ListId, OutOfMemory, Person, Protections, TraitSet};
use slot_matching::Matching;
use std::alloc::Global;
use std::marker::Model;

/// What came of a person who was offered to a step.
#[derive(Clone, Copy, PartialEq, Eq)]
pub enum Offered {
    /// A seat was free: the person is held, and nobody left.
    Taken,
    /// The person is held, and this one of those held before has left.
    Displaced(CandId),
    /// The seats hold whom they held before.
    Refused,
}

/// The seats of a step, and whom they hold of all who were offered so far.
#[derive(Drop)]
pub struct StepState {
    list: ListId,
    seats: u16,
    matching: Matching,
    held: Vec<Person>,
    marks: Vec<bool>,
}

impl Model for StepState {
    ghost use Rattle.std.specs.Prelude.{vec_capacity};
    ghost use Rattle.merit_choice.specs.State.{StepKept, IsWorked};

    ghost Value = { StepKept };

    ghost view = { λ a. record { list = a.list; seats = a.seats; protections = a.matching.protections; held = a.held.items } };

    ghost invariant = { λ a. IsWorked (record { list = a.list; seats = a.seats; protections = a.matching.protections; held = a.held.items }) a.matching a.marks.items (vec_capacity a.held) (vec_capacity a.marks) };
}

impl StepState {
    /// A step that holds nobody. It takes the room for all its seats and one more now, so that no later call takes memory.
    pub fn new(
        alloc: Global,
        list: ListId,
        seats: u16,
        protections: Protections,
    ) -> Result<StepState, OutOfMemory>
        requires list { IsList list }
        requires protections { sum protections.counts ≤ seats }
        ensures { IfOk result (λ state.
            state ≡ record { list = list; seats = seats; protections = protections; held = [] }) }
    {
        let room = usize::from(seats) + 1;
        Ok(StepState {
            list,
            seats,
            matching: Matching::new(alloc, protections, list)?,
            held: Vec::with_capacity(alloc, room)?,
            marks: Vec::with_capacity(alloc, room)?,
        })
    }

    /// Offers the person to the step, which then holds the choice from those whom it held and the person. So after
    /// any offers it holds the choice from all who were offered. Allocates nothing, and moves at most the seats. A
    /// person after all whom it holds, who is not needed, costs a few comparisons.
    pub fn offer(&mut self, person: &Person) -> Offered
        requires { IsNewTo self.old.list self.old.held person.now }
        // the list, the seats and the protections stay
        ensures stays { self.new ≡ record self.old { held = self.new.held } }
        ensures choice { IsStepChoice (step_with self.old person.now) self.new.held }
        ensures answer { IsAnswered self.old person.now result self.new }
        ensures kept { IsStepKept self.new }
    {
        let Some(gone) = self.hand(person) else {
            return Offered::Taken;
        };
        if gone.id == person.id {
            Offered::Refused
        } else {
            Offered::Displaced(gone.id)
        }
    }

    /// Does the same as `offer`, and returns who is left without a seat: nobody if a seat was free, otherwise one of
    /// those whom the seats held or the person.
    pub fn hand(&mut self, person: &Person) -> Option<Person>
        requires { IsNewTo self.old.list self.old.held person.now }
        ensures was { IsStepKept self.old }
        ensures stays { self.new ≡ record self.old { held = self.new.held } }
        ensures choice { IsStepChoice (step_with self.old person.now) self.new.held }
        ensures hands_on { HandsOn self.old person.now result self.new }
        ensures kept { IsStepKept self.new }
    {
        let at = place_for(self.held.as_slice(), person, self.list);
        // after all whom the seats hold, and not needed
        if at == usize::from(self.seats) && !self.matching.raises(person) {
            return Some(*person);
        }
        enter(
            &mut self.matching,
            &mut self.held,
            &mut self.marks,
            person,
            self.list,
            at,
        );
        if self.held.len() <= usize::from(self.seats) {
            return None;
        }
        let gone = leave(&mut self.held, &mut self.marks);
        Some(gone)
    }

    /// Those whom the seats hold, in merit order.
    pub fn admitted(&self) -> &[Person]
        ensures held { result.now ≡ self.now.held }
        ensures kept { IsStepKept self.now }
    {
        self.held.as_slice()
    }
}

/// Puts a person at this merit place among those held, with a mark.
fn enter(
    matching: &mut Matching,
    held: &mut Vec<Person>,
    marks: &mut Vec<bool>,
    person: &Person,
    list: ListId,
    at: usize,
)
    requires list { IsList list }
    requires ranked { AreRanked list held.old.items }
    requires new { IsNewTo list held.old.items person.now }
    requires within { at ≤ length held.old.items }
    requires place { insert held.old.items at person.now
        ≡ with_person list person.now held.old.items }
    requires matched { IsMatched list held.old.items marks.old.items matching.old }
    requires room { vec_len held.old < vec_capacity held.old }
    requires marks_room { vec_len marks.old < vec_capacity marks.old }
    ensures held { held.new.items ≡ with_person list person.now held.old.items }
    ensures matched { IsMatched list held.new.items marks.new.items matching.new }
    ensures protections { matching.new.protections ≡ matching.old.protections }
    ensures room { vec_capacity held.old ≤ vec_capacity held.new }
    ensures marks_room { vec_capacity marks.old ≤ vec_capacity marks.new }
{
    let needed = join(
        matching,
        held.as_slice(),
        marks.as_mut_slice(),
        person,
        list,
        at,
    );
    put(held, at, *person);
    put(marks, at, needed);
}

/// Keeps a person who comes at this merit place in the matching too, if the protections need the person then. Returns
/// whether they do. A member who is needed no longer loses the mark.
fn join(
    matching: &mut Matching,
    held: &[Person],
    marks: &mut [bool],
    person: &Person,
    list: ListId,
    at: usize,
) -> bool
    requires list { IsList list }
    requires ranked { AreRanked list held.now }
    requires new { IsNewTo list held.now person.now }
    requires within { at ≤ length held.now }
    requires place { insert held.now at person.now ≡ with_person list person.now held.now }
    requires matched { IsMatched list held.now marks.old matching.old }
    ensures protections { matching.new.protections ≡ matching.old.protections }
    ensures matched { IsMatched list (person.now ∷ held.now) (result ∷ marks.new) matching.new }
{
    match matching.replaceable(person) {
        None => {
            let _raised = matching.augment(person);
            true
        }
        Some(set) => replace(matching, held, marks, person, list, at, set),
    }
}

/// Puts the person in the place of the worst of the needed whom the person can replace, if that one is worse. Returns
/// whether it did. The needed whom the person can replace hold no trait outside the set. Anyone worse is at the
/// person's merit place or after it.
fn replace(
    matching: &mut Matching,
    held: &[Person],
    marks: &mut [bool],
    person: &Person,
    list: ListId,
    at: usize,
    set: TraitSet,
) -> bool
    requires list { IsList list }
    requires ranked { AreRanked list held.now }
    requires new { IsNewTo list held.now person.now }
    requires within { at ≤ length held.now }
    requires place { insert held.now at person.now ≡ with_person list person.now held.now }
    requires matched { IsMatched list held.now marks.old matching.old }
    requires replaceable { IsReplaceable matching.old person.now (Some set) }
    ensures protections { matching.new.protections ≡ matching.old.protections }
    ensures matched { IsMatched list (person.now ∷ held.now) (result ∷ marks.new) matching.new }
{
    // nobody is needed who holds no trait
    if set.0 == 0 {
        return false;
    }
    let Some(last) = last_within(held, marks, at, set) else {
        return false;
    };
    matching.exchange(held[last].id, person);
    marks[last] = false;
    true
}
