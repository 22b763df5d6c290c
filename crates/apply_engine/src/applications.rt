// The applications: one offer, the offers until all so far are settled, and all of them.
ghost use Rattle.std.specs.Prelude.{◌≡◌, ◌<◌, ◌≤◌, ◌+◌, ℕ, List, Some, None, IfOk, length, slice_get, slice_set, slice_index, sum};
ghost use Rattle.allocations.specs.Course.{places, places_left};
ghost use Rattle.office_base.specs.Version.{IsVersion};
ghost use Rattle.apply_engine.specs.Engine.{Setting, free_at, AreSettledBefore, AreTallied, Enters, HasApplied, HasRun, IsGoing, IsNextToPropose, Leaves, MayPropose, seekers_in};

use crate::programmes::{begin_states, begin_tallies};
use choice_lists::FlatLists;
use merit_choice::Offered;
use office_base::{OutOfMemory, ProgId, Steps};
use open_then_category::{ProgrammeState, Tried};
use rank_lists::Register;
use seat_matrix::Matrix;
use std::alloc::Global;
use std::sync::ledger::Ledger;

/// Holds all applications: the programmes, each with the choice from all who tried it; how many tried it; and how
/// many programmes of their list each candidate tried.
#[derive(Drop)]
pub(crate) struct Applied {
    pub states: Vec<ProgrammeState>,
    pub tallies: Vec<Tried>,
    pub next: Vec<u16>,
}

/// Returns the place of one whom a programme does not choose, unless the candidate there is guaranteed a seat of it.
fn free_unless_kept(guaranteed: &[Option<ProgId>], place: usize, prog: ProgId) -> Option<usize>
    requires { place < length guaranteed.now }
    ensures { result ≡ free_at guaranteed.now place prog.0 }
{
    match guaranteed[place] {
        Some(kept) => { if kept.0 == prog.0 { None } else { Some(place) } }
        None => Some(place),
    }
}

/// Makes the candidate at `cur`, who is free, try the next programme of their list. Returns who is free then: nobody,
/// or the one at this place.
fn offer_next<L: Ledger>(
    register: &Register,
    lists: &FlatLists<ProgId>,
    guaranteed: &[Option<ProgId>],
    states: &mut [ProgrammeState],
    tallies: &mut [Tried],
    next: &mut [u16],
    cur: usize,
    steps: &mut Steps<L>,
) -> Option<usize>
    ghost over: { Setting }
    requires may_propose { MayPropose over register.now.people lists.now guaranteed.now next.old states.old cur }
    requires tallied { AreTallied over next.old tallies.old }
    ensures going { IsGoing over next.new states.new }
    ensures tallied { AreTallied over next.new tallies.new }
    ensures next { next.new ≡ slice_set next.old cur (slice_index next.old cur + 1) }
    ensures free { Leaves over next.old next.new cur result }
    ensures left { places_left (seekers_in over) next.old
        ≡ places_left (seekers_in over) next.new + 1 }
    ensures cost { steps.new ≡ steps.old + 1 }
{
    let prog = lists.at(cur)[usize::from(next[cur])];
    next[cur] += 1;
    let person = &register.people()[cur];
    let at = usize::from(prog.0);
    tallies[at].add(person);
    match states[at].offer(person, steps) {
        Offered::Taken => None,
        Offered::Refused => free_unless_kept(guaranteed, cur, prog),
        Offered::Displaced(cand) => {
            let Some(place) = register.position(cand) else {
                unreachable!("whoever is held is a candidate of the register")
            };
            free_unless_kept(guaranteed, place as usize, prog)
        }
    }
}

/// Offers on behalf of the candidate at `first`, and of anyone who is displaced, until all up to `first` are settled.
fn apply_from<L: Ledger>(
    register: &Register,
    lists: &FlatLists<ProgId>,
    guaranteed: &[Option<ProgId>],
    states: &mut [ProgrammeState],
    tallies: &mut [Tried],
    next: &mut [u16],
    first: usize,
    steps: &mut Steps<L>,
)
    ghost over: { Setting }
    requires is_next { IsNextToPropose over register.now.people
        lists.now guaranteed.now next.old states.old first }
    requires tallied { AreTallied over next.old tallies.old }
    ensures applied { HasApplied over next.old next.new states.new (first + 1) steps.old steps.new }
    ensures tallied { AreTallied over next.new tallies.new }
{
    let mut cur = first;
    while usize::from(next[cur]) < lists.at(cur).len() {
        match offer_next(
            register, lists, guaranteed, states, tallies, next, cur, steps,
        ) {
            None => return,
            Some(free) => cur = free,
        }
    }
}

/// Offers on behalf of all candidates, in their order.
fn apply_in_order<L: Ledger>(
    register: &Register,
    lists: &FlatLists<ProgId>,
    guaranteed: &[Option<ProgId>],
    states: &mut [ProgrammeState],
    tallies: &mut [Tried],
    next: &mut [u16],
    steps: &mut Steps<L>,
)
    ghost over: { Setting }
    requires settled { AreSettledBefore over register.now.people lists.now guaranteed.now next.old states.old 0 }
    requires tallied { AreTallied over next.old tallies.old }
    ensures applied { HasApplied over next.old next.new states.new
        (length register.now.people) steps.old steps.new }
    ensures tallied { AreTallied over next.new tallies.new }
{
    for first in 0..next.len() {
        apply_from(
            register, lists, guaranteed, states, tallies, next, first, steps,
        );
    }
}

/// All applications, from the first one on: a step for each.
pub(crate) fn apply_all<L: Ledger>(
    alloc: Global,
    version: u8,
    matrix: &Matrix,
    register: &Register,
    lists: &FlatLists<ProgId>,
    guaranteed: &[Option<ProgId>],
    steps: &mut Steps<L>,
) -> Result<Applied, OutOfMemory>
    ghost over: { Setting }
    requires { Enters over version matrix.now register.now.people lists.now guaranteed.now }
    ensures run { IfOk result (λ applied.
        HasRun over applied.next.items applied.states.items applied.tallies.items) }
    ensures cost { steps.new ≤ steps.old + places (seekers_in over) }
    ensures counted { IfOk result (λ applied. steps.new ≡ steps.old + sum applied.next.items) }
{
    let mut states = begin_states(alloc, matrix, version)?;
    let mut tallies = begin_tallies(alloc, matrix)?;
    let mut next = vec![in alloc; 0u16; lists.len()]?;
    apply_in_order(
        register,
        lists,
        guaranteed,
        &mut states,
        &mut tallies,
        &mut next,
        steps,
    );
    Ok(Applied {
        states,
        tallies,
        next,
    })
}
