// Where a round's text and the lists of its programmes differ.
ghost use Rattle.std.specs.Prelude.{◌≡◌, ◌<◌, ◌↔◌, ◌∷◌, ◌++◌, ◌+◌, [], Bool, IfOk, IsTrue, List, Some, false, length, replicate, Option};
ghost use Rattle.office_base.specs.declared.person.Person.{Person};
ghost use Rattle.season_facts.specs.Season.{facts_of};
ghost use Rattle.audit_rules.specs.AtCut.{IsAtCut, Setting};
ghost use Rattle.audit_rules.specs.Comes.{AreLists, HoldOn, UnlistedComesTo};
ghost use Rattle.audit_rules.specs.Entries.{AreMarked, AreMarking, IsEarlier, IsFirstMiss, IsMiss, IsWrong, TakesPlace};
ghost use Rattle.audit_rules.specs.declared.entries.Entry.{Entry as AnyEntry};

use crate::entries::{Entry, entries};
use crate::stand::Stand;
use list_texts::ListRead;
use office_base::{CandId, OutOfMemory, ProgId, Seat};
use rank_lists::Register;
use season_file::Season;
use seat_matrix::Matrix;
use std::alloc::Global;

/// A candidate, by the place in the register, on whom the lists of a programme and the round's text differ.
#[derive(Clone, Copy)]
pub struct Miss {
    pub prog: ProgId,
    pub at: usize,
}

/// The one of the two that comes first: programme by programme, and in each down the register.
fn earlier(first: Option<Miss>, prog: ProgId, at: usize) -> Option<Miss>
    ensures { IsEarlier first prog.0 at result }
{
    match first {
        Some(miss) => {
            if miss.prog.0 < prog.0 || (miss.prog.0 == prog.0 && miss.at <= at) {
                first
            } else {
                Some(Miss { prog, at })
            }
        }
        None => Some(Miss { prog, at }),
    }
}

/// Whether the seat is this one.
fn is_seat(seat: Option<Seat>, other: Seat) -> bool
    ensures { IsTrue result ↔ (seat ≡ Some other) }
{
    match seat {
        Some(seat) => seat.prog == other.prog && seat.step == other.step,
        None => false,
    }
}

/// Marks the candidate of an entry if the entry names their own seat. Otherwise this candidate may be the first miss.
/// Returns the first miss.
fn mark_one(
    register: &Register,
    seats: &[Option<Seat>],
    marks: &mut [bool],
    first: Option<Miss>,
    entry: Entry,
) -> Option<Miss>
    requires seats { length seats.now ≡ length register.now.people }
    requires marks { length marks.old ≡ length register.now.people }
    ensures full { length marks.new ≡ length register.now.people }
    ensures marking { (entries : List AnyEntry)
        → AreMarking register.now.people seats.now entries marks.old first
        → AreMarking register.now.people seats.now (entries ++ entry ∷ []) marks.new result }
{
    let Some(at) = register.position(entry.cand) else {
        return first;
    };
    let at = at as usize;
    if !is_seat(seats[at], entry.seat) {
        return earlier(first, entry.seat.prog, at);
    }
    marks[at] = true;
    first
}

/// Marks each candidate whom an entry names for their own seat.
/// Returns the first candidate whom an entry names for another seat.
fn mark(
    register: &Register,
    seats: &[Option<Seat>],
    entries: &[Entry],
    marks: &mut [bool],
) -> Option<Miss>
    requires seats { length seats.now ≡ length register.now.people }
    requires marks { marks.old ≡ replicate (length register.now.people) false }
    ensures { AreMarking register.now.people seats.now entries.now marks.new result }
{
    let mut first = None;
    for entry in entries {
        first = mark_one(register, seats, marks, first, *entry);
    }
    first
}

/// The first miss, with the candidate at this place, where the seat is of one of so many programmes and there is no mark.
fn next_missed(
    first: Option<Miss>,
    seat: Option<Seat>,
    marked: bool,
    count: usize,
    at: usize,
) -> Option<Miss>
    ensures { TakesPlace seat marked count at first result }
{
    let Some(seat) = seat else {
        return first;
    };
    if usize::from(seat.prog.0) >= count {
        return first;
    }
    if marked {
        return first;
    }
    earlier(first, seat.prog, at)
}

/// The first whom an entry names wrong, or who has a seat of one of so many programmes and no mark.
fn first_missed(
    seats: &[Option<Seat>],
    marks: &[bool],
    count: usize,
    wrong: Option<Miss>,
) -> Option<Miss>
    requires { length marks.now ≡ length seats.now }
    ensures { (people : List Person) (entries : List AnyEntry)
        → IsFirstMiss (IsWrong people seats.now entries) wrong
        → IsFirstMiss (IsMiss people seats.now entries marks.now count (length seats.now)) result }
{
    let mut first = wrong;
    for at in 0..seats.len() {
        first = next_missed(first, seats[at], marks[at], count, at);
    }
    first
}

/// The first candidate on whom the lists of a programme and the round's text differ, with the programme: programme by programme, and in each down the
/// register. It is linear in the lists and the register.
pub fn first_unlisted(
    alloc: Global,
    season: &Season,
    matrix: &Matrix,
    stands: &[Stand],
    seats: &[Option<Seat>],
    lists: &[ListRead],
) -> Result<Option<(ProgId, CandId)>, OutOfMemory>
    ghost at: { Setting }
    requires at { IsAtCut (facts_of season.now) at matrix.now stands.now seats.now }
    requires lists { AreLists (facts_of season.now) at lists.now }
    requires hold { HoldOn (facts_of season.now) at }
    ensures { IfOk result (UnlistedComesTo (facts_of season.now) at) }
{
    let _ = matrix.count();
    let _ = stands;
    let all = entries(alloc, lists)?;
    let mut marks = vec![in alloc; false; seats.len()]?;
    let wrong = mark(&season.register, seats, &all, &mut marks);
    match first_missed(seats, &marks, lists.len(), wrong) {
        Some(miss) => Ok(Some((miss.prog, season.register.people()[miss.at].id))),
        None => Ok(None),
    }
}
