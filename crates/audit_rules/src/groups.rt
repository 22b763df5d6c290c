// Who applies to which programme.
ghost use Rattle.std.specs.Prelude.{◌≡◌, ◌<◌, ◌≤◌, ◌^◌, ◌++◌, ◌∷◌, ℕ, [], IfOk, List, OnOk, Some, length, replicate, slice_get, if◌then◌else◌};
ghost use Rattle.allocations.specs.Market.{applies, is_of, place_of};
ghost use Rattle.office_base.specs.declared.person.ProgId.{ProgId as AnyProg};
ghost use Rattle.season_facts.specs.Season.{facts_of};
ghost use Rattle.seeks.specs.Seek.{AreBelow};
ghost use Rattle.audit_rules.specs.Cut.{seekers_at};
ghost use Rattle.audit_rules.specs.AtCut.{IsAtCut, Setting};
ghost use Rattle.audit_rules.specs.Groups.{AreGroups, picked};

use crate::sought::seek_of;
use crate::stand::Stand;
use office_base::{Listed, OutOfMemory, Person, ProgId, Seat};
use season_file::Season;
use seat_matrix::Matrix;
use seeks::push_left;
use std::alloc::Global;

/// Places in the register, rising.
pub type Places = Listed<u32>;

/// Whether the seat is of the programme.
fn is_of(seat: Option<Seat>, prog: ProgId) -> bool
    ensures { result ≡ is_of prog.0 seat }
{
    match seat {
        Some(seat) => seat.prog == prog,
        None => false,
    }
}

/// Puts the place of a candidate into the group of each programme that is sought, up to that of the seat.
fn apply(
    groups: &mut [Places],
    sought: &[ProgId],
    seat: Option<Seat>,
    at: u32,
) -> Result<(), OutOfMemory>
    requires below { AreBelow (length groups.old) sought.now }
    requires distinct { (k : ℕ) (prog : AnyProg) → slice_get sought.now k ≡ Some prog
        → place_of sought.now prog.0 ≡ k }
    ensures full { OnOk result (length groups.new ≡ length groups.old) }
    ensures each { OnOk result ((p : ℕ) (group : List ℕ) → slice_get groups.old p ≡ Some group
        → slice_get groups.new p
        ≡ Some (group ++ (if applies p sought.now seat then at ∷ [] else []))) }
{
    for prog in sought {
        groups[usize::from(prog.0)].push(at)?;
        if is_of(seat, *prog) {
            return Ok(());
        }
    }
    Ok(())
}

/// So many empty groups.
fn no_groups(alloc: Global, count: usize) -> Result<Vec<Places>, OutOfMemory>
    ensures { IfOk result (λ groups. groups.items ≡ replicate count []) }
{
    let mut groups = Vec::with_capacity(alloc, count)?;
    for done in 0..count {
        let _ = done;
        groups.push(Listed::new(alloc))?;
    }
    Ok(groups)
}

/// Returns for each programme the places of those who apply to it, by the seats that the round's text gives.
/// It is linear in the choice lists.
pub fn applicants(
    alloc: Global,
    season: &Season,
    matrix: &Matrix,
    stands: &[Stand],
    seats: &[Option<Seat>],
) -> Result<Vec<Places>, OutOfMemory>
    ghost at: { Setting }
    requires { IsAtCut (facts_of season.now) at matrix.now stands.now seats.now }
    ensures { IfOk result (λ groups. AreGroups (length (facts_of season.now).matrix.programmes)
        (seekers_at (facts_of season.now) at.state) seats.now groups.items) }
{
    let mut groups = no_groups(alloc, usize::from(matrix.count()))?;
    let mut sought = Vec::new(alloc);
    for (k, person) in season.register.people().iter().enumerate() {
        let list = season.choices.list_near(k, person.id);
        sought.clear();
        push_left(&mut sought, matrix, seek_of(list, &stands[k]), list)?;
        apply(&mut groups, &sought, seats[k], k as u32)?;
    }
    Ok(groups)
}

/// The person at a place, where there is one.
fn person_at(people: &[Person], at: u32) -> Option<Person>
    ensures { result ≡ slice_get people.now at }
{
    people.get(at as usize).copied()
}

/// The people at some places.
pub fn pick(alloc: Global, people: &[Person], places: &[u32]) -> Result<Vec<Person>, OutOfMemory>
    ensures { IfOk result (λ some. some.items ≡ picked people.now places.now) }
{
    let mut some = Vec::with_capacity(alloc, places.len())?;
    for at in places {
        let Some(person) = person_at(people, *at) else {
            continue;
        };
        some.push(person)?;
    }
    Ok(some)
}
