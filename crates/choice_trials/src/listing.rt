// The list of a step, by trying all sets of its people and all placements of those whom it admits.
ghost use Rattle.std.specs.Prelude.{◌≡◌, ℕ, List, IfOk, MatchOption};
ghost use Rattle.office_base.specs.StepChoice.{IsStep, IsStepChoice};
ghost use Rattle.office_base.specs.declared.person.Person.{Person as AnyPerson};
ghost use Rattle.choice_trials.specs.ListOf.{IsListOf};

use crate::certifying::canonical;
use crate::choosing::choice;
use crate::ranking::is_step;
use office_base::{OutOfMemory, Pairs, People, Step, StepKind};
use std::alloc::Global;

/// The list of a step.
#[derive(Drop)]
pub struct PlainList {
    pub kind: StepKind,
    pub seats: u32,
    /// How many people compete for the seats.
    pub candidates: usize,
    pub admitted: People,
    pub pairs: Pairs,
}

/// The list of a step: whom it admits of all sets of its people, and the first of the longest placements of those. `None` says that
/// this is no step, or that no set is its choice. `OutOfMemory` leaves nothing behind.
pub fn list_of(alloc: Global, kind: StepKind, step: &Step) -> Result<Option<PlainList>, OutOfMemory>
    ensures { IfOk result (λ found. MatchOption found (IsStep step.now → (set : List AnyPerson)
        → ¬ IsStepChoice step.now set) (IsListOf kind step.now)) }
{
    if !is_step(step) {
        return Ok(None);
    }
    let Some(admitted) = choice(alloc, step)? else {
        return Ok(None);
    };
    let pairs = canonical(alloc, admitted.as_slice(), &step.protections)?;
    Ok(Some(PlainList {
        kind,
        seats: u32::from(step.seats),
        candidates: step.people.len(),
        admitted,
        pairs,
    }))
}
