// The choice from all people of a step at once.
ghost use Rattle.std.specs.Prelude.{◌≡◌, ◌≤◌, ◌<◌, [], length, IfOk};
ghost use Rattle.std.specs.List.{AllByRecursion};
ghost use Rattle.office_base.specs.Certificate.{IsCanonical};
ghost use Rattle.office_base.specs.StepChoice.{IsStep, IsStepChoice};
ghost use Rattle.slot_matching.specs.Kept.{MayJoin};
ghost use Rattle.merit_choice.specs.Marks.{marked, kept, filled_up, AreRaises, IsJoined};

use office_base::{Listed, OutOfMemory, People, Person, Step};
use slot_cert::{Cert, canonical_pairs};
use slot_matching::{Augment, Matching};
use std::alloc::Global;

/// Whom a step admits, in merit order, and what shows which of its protections they fill.
#[derive(Drop)]
pub struct Chosen {
    pub admitted: People,
    pub cert: Cert,
}

/// Whom the protections of a step need.
#[derive(Drop)]
struct Needed {
    /// for each of the people, whether the person raises the number of protections honoured by those before
    marks: Listed<bool>,
    /// how many do
    count: u16,
}

/// Returns the choice of a step. Down the merit order, the step admits each person who raises the number of honoured
/// protections. Then it admits the best of the others to the seats that are left. The certificate of the admitted
/// comes with the choice.
///
/// The rule is the two-step choice of Sönmez and Yenmez (Econometrica 2022): one admitted candidate counts for at
/// most one protected position.
pub fn choose(alloc: Global, step: &Step) -> Result<Chosen, OutOfMemory>
    requires { IsStep step.now }
    ensures choice { IfOk result (λ chosen. IsStepChoice step.now chosen.admitted) }
    ensures certificate { IfOk result (λ chosen.
        IsCanonical step.now.protections chosen.admitted chosen.cert.pairs) }
    // each slot is the number of a trait, and there are no more pairs than seats
    ensures slots { IfOk result (λ chosen.
        AllByRecursion (λ pair. pair.slot < 6) chosen.cert.pairs) }
    ensures few { IfOk result (λ chosen. length chosen.cert.pairs ≤ step.now.seats) }
{
    let admitted = admit(alloc, step)?;
    let pairs = canonical_pairs(alloc, admitted.as_slice(), &step.protections)?;
    Ok(Chosen {
        admitted,
        cert: Cert { pairs },
    })
}

/// Whom a step admits, in merit order.
fn admit(alloc: Global, step: &Step) -> Result<People, OutOfMemory>
    requires { IsStep step.now }
    ensures { IfOk result (λ admitted. IsStepChoice step.now admitted) }
{
    let seats = step.seats;
    let needed = find_needed(alloc, step)?;
    let free = seats - needed.count;
    fill_up(alloc, step.people.as_slice(), needed.marks.as_slice(), free)
}

/// Offers the people of a step to a matching, the best first.
fn find_needed(alloc: Global, step: &Step) -> Result<Needed, OutOfMemory>
    requires step { IsStep step.now }
    requires few { step.now.seats ≤ 65535 }
    ensures marks { IfOk result (λ needed.
        AreRaises step.now.protections [] step.now.people needed.marks) }
    ensures count { IfOk result (λ needed. needed.count ≡ marked needed.marks) }
{
    let people = step.people.as_slice();
    let mut matching = Matching::new(alloc, step.protections, step.list)?;
    let mut marks = Listed::with_capacity(alloc, people.len())?;
    for person in people {
        marks.push(try_join(&mut matching, person))?;
    }
    Ok(Needed {
        marks,
        count: matching.honoured(),
    })
}

/// Keeps the person in the matching too if that honours one protection more. Returns whether it does.
fn try_join(matching: &mut Matching, person: &Person) -> bool
    requires { MayJoin matching.old person.now }
    ensures { IsJoined matching.old person.now result matching.new }
{
    // most cannot join, and to see that costs no look at the members
    matching.raises(person) && matches!(matching.augment(person), Augment::Raised)
}

/// Those of the people whose mark is set, and the first of the others on the free seats, in their order.
fn fill_up(
    alloc: Global,
    people: &[Person],
    marks: &[bool],
    free: u16,
) -> Result<People, OutOfMemory>
    requires { length marks.now ≡ length people.now }
    ensures { IfOk result (λ admitted. admitted ≡ kept people.now (filled_up marks.now free)) }
{
    let mut admitted = People::new(alloc);
    let mut left = free;
    for (at, person) in people.iter().enumerate() {
        if marks[at] {
            admitted.push(*person)?;
        } else if left > 0 {
            admitted.push(*person)?;
            left -= 1;
        }
    }
    Ok(admitted)
}
