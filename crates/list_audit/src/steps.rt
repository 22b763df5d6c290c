// One step of a programme's lists: the first clause that it breaks.
ghost use Rattle.std.specs.Prelude.{◌≡◌, ◌≤◌, ◌↔◌, ℕ, List, IfOk, IsTrue, length, min, sum};
ghost use Rattle.std.specs.List.{AllByRecursion};
ghost use Rattle.office_base.specs.Lists.{IsSublist};
ghost use Rattle.office_base.specs.Merit.{in_merit};
ghost use Rattle.office_base.specs.Person.{IsList, IsTraitSet};
ghost use Rattle.office_base.specs.Placement.{IsHonoured};
ghost use Rattle.office_base.specs.StepChoice.{AreRanked};
ghost use Rattle.office_base.specs.declared.person.Person.{Person as AnyPerson};
ghost use Rattle.placements.specs.Ranks.{AreDistinct};
ghost use Rattle.seat_matrix.specs.Seats.{AreProgrammeSeats};
ghost use Rattle.list_audit.specs.Clauses.{AreRightNumbers, audited, list_of_step, named_by, people_at};
ghost use Rattle.list_audit.specs.Stand.{left_to};
ghost use Rattle.list_audit.specs.Steps.{Certifies, IsBestOf, IsChoiceFault, IsStepFault};

use crate::ahead::first_ahead;
use crate::clause::{Clause, ListFault};
use crate::laws::reckoned;
use crate::needed::reckon;
use crate::numbers::{has_seats, list_of};
use crate::outside::first_outside;
use crate::stand::{standing, without};
use merit_choice::laws::ranked_part;
use office_base::{CandId, ListId, OutOfMemory, Person, Protections, StepKind};
use programme_lists::{Programme, StepList};
use seat_matrix::ProgrammeSeats;
use slot_cert::Cert;
use std::alloc::Global;

/// Whether the pairs place some of those named, and are as many as all the people honour.
fn certifies(
    alloc: Global,
    list: ListId,
    protections: &Protections,
    people: &[Person],
    named: &[Person],
    cert: &Cert,
) -> Result<bool, OutOfMemory>
    requires list { IsList list }
    requires few { sum protections.now.counts ≤ 65535 }
    requires ranked { AreRanked list people.now }
    requires traits { AllByRecursion (λ person. IsTraitSet person.traits) named.now }
    ensures { IfOk result (λ holds.
        IsTrue holds ↔ Certifies protections.now people.now named.now cert.now.pairs) }
{
    if !cert.check(protections, named) {
        return Ok(false);
    }
    let reckoning = reckon(alloc, list, *protections, people)?;
    Ok(cert.pairs.len() == usize::from(reckoning.needed.honoured()))
}

/// The best of the people who could take the place of one of those named who is worse. Those named honour as much as all the people.
fn best_overtaking(
    alloc: Global,
    list: ListId,
    protections: &Protections,
    people: &[Person],
    named: &[Person],
) -> Result<Option<CandId>, OutOfMemory>
    requires list { IsList list }
    requires few { sum protections.now.counts ≤ 65535 }
    requires ranked { AreRanked list people.now }
    requires part { IsSublist named.now people.now }
    requires most { (n : ℕ) × IsHonoured protections.now named.now n
        × IsHonoured protections.now people.now n }
    ensures { IfOk result (λ cand. IsBestOf list protections.now people.now named.now cand) }
{
    reckoned();
    let reckoning = reckon(alloc, list, *protections, named)?;
    let others = without(alloc, people, named)?;
    Ok(first_ahead(&reckoning, list, others.as_slice()))
}

/// The certificate does not show what the people honour, or somebody could take the place of one who is worse. Those named are a part of the people.
fn choice_fault(
    alloc: Global,
    list: ListId,
    protections: &Protections,
    people: &[Person],
    shown: &StepList,
) -> Result<Option<ListFault>, OutOfMemory>
    requires list { IsList list }
    requires few { sum protections.now.counts ≤ 65535 }
    requires ranked { AreRanked list people.now }
    requires part { IsSublist shown.now.admitted people.now }
    ensures { IfOk result (λ fault. IsChoiceFault list protections.now people.now shown.now fault) }
{
    let named = shown.admitted.as_slice();
    if !certifies(alloc, list, protections, people, named, &shown.cert)? {
        return Ok(Some((Clause::BadCertificate, None)));
    }
    match best_overtaking(alloc, list, protections, people, named)? {
        Some(cand) => Ok(Some((Clause::Overtaken, Some(cand)))),
        None => Ok(None),
    }
}

/// Returns whether the list of a step shows its seats and the number of its people.
fn are_right_numbers(
    version: u8,
    seats: &ProgrammeSeats,
    programme: &Programme,
    kind: StepKind,
    people: &[Person],
) -> bool
    requires { AreProgrammeSeats seats.now }
    ensures { (applicants : List AnyPerson) → people.now
        ≡ people_at (audited version seats.now applicants programme.now kind) → IsTrue result
        ↔ AreRightNumbers (audited version seats.now applicants programme.now kind) }
{
    has_seats(version, seats, programme, kind)
        && list_of(programme, kind).candidates as usize == people.len()
}

/// The first clause that a step breaks, from its people.
fn fault_among(
    alloc: Global,
    version: u8,
    seats: &ProgrammeSeats,
    programme: &Programme,
    kind: StepKind,
    people: &[Person],
) -> Result<Option<ListFault>, OutOfMemory>
    requires seats { AreProgrammeSeats seats.now }
    requires ranked { AreRanked seats.now.list people.now }
    requires once { AreDistinct (list_of_step programme.now kind).admitted }
    ensures { IfOk result (λ fault. (applicants : List AnyPerson)
        → people.now ≡ people_at (audited version seats.now applicants programme.now kind)
        → IsStepFault (audited version seats.now applicants programme.now kind) fault) }
{
    let shown = list_of(programme, kind);
    let named = shown.admitted.as_slice();
    if !are_right_numbers(version, seats, programme, kind, people) {
        return Ok(Some((Clause::WrongNumbers, None)));
    }
    if let Some(cand) = first_outside(seats.list, people, named) {
        return Ok(Some((Clause::NotCandidate, Some(cand))));
    }
    if named.len() != (shown.seats as usize).min(people.len()) {
        return Ok(Some((Clause::WrongSize, None)));
    }
    ranked_part();
    choice_fault(
        alloc,
        seats.list,
        &seats.of(kind).protections,
        people,
        shown,
    )
}

/// The first clause that a step breaks, from those whom the steps before left.
pub(crate) fn step_fault(
    alloc: Global,
    version: u8,
    seats: &ProgrammeSeats,
    programme: &Programme,
    kind: StepKind,
    rest: &[Person],
) -> Result<Option<ListFault>, OutOfMemory>
    requires seats { AreProgrammeSeats seats.now }
    requires ranked { AreRanked seats.now.list rest.now }
    requires once { AreDistinct (list_of_step programme.now kind).admitted }
    ensures { IfOk result (λ fault. (applicants : List AnyPerson)
        → rest.now ≡ left_to (in_merit seats.now.list applicants) (named_by programme.now) kind
        → IsStepFault (audited version seats.now applicants programme.now kind) fault) }
{
    let people = standing(alloc, rest, seats.list, kind)?;
    fault_among(alloc, version, seats, programme, kind, people.as_slice())
}
