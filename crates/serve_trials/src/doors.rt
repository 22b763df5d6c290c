// An office served at doors: one that fails at each call, with a link that fails, and two whose workers wait for each other.
ghost use Rattle.std.specs.Prelude.{◌≡◌, ◌≤◌, IfSome, length};
ghost use Rattle.std.specs.List.{AllByRecursion};

use crate::handover::Handover;
use crate::opened::{AT_FIRST, CUT, LEAVE, LEFT, PUBLISHED, STATE, link, opened};
use office_base::OutOfMemory;
use office_http::{Gate, OpenGate, Served, serve};
use office_links::MemDoor;
use round_cut::{Act, Entry};
use std::alloc::Global;
use std::sync::Wait;
use std::thread::Threads;

/// A door of one link with these bytes.
fn door(alloc: Global, bytes: &str) -> Option<MemDoor>
    ensures { IfSome result (λ door. length door.coming ≡ 1) }
{
    let link = link(alloc, bytes.as_bytes(), 0)?;
    let links = Vec::from_array(alloc, [link]).ok()?;
    MemDoor::new(alloc, links, &[]).ok()
}

/// A door whose `accept` of this number fails, of a link that fails at its third call and of one that asks how far the office is.
fn failing_door(alloc: Global, fail_at: u32) -> Option<MemDoor>
    ensures { IfSome result (λ door. length door.coming ≡ 2) }
{
    let torn = link(alloc, LEAVE.as_bytes(), 3)?;
    let whole = link(alloc, STATE.as_bytes(), 0)?;
    let links = Vec::from_array(alloc, [torn, whole]).ok()?;
    MemDoor::new(alloc, links, &[fail_at]).ok()
}

/// Whether a door gave back so many links, and these texts are written on them.
fn gave_back(door: &MemDoor, written: &[&str]) -> bool {
    let links = door.returned();
    if links.len() != written.len() {
        return false;
    }
    for (link, text) in links.iter().zip(written) {
        if link.bytes() != text.as_bytes() {
            return false;
        }
    }
    true
}

/// How an office was served: whether a door failed, whether all was kept, how many entries the office has then, and whether the first
/// of them is an answer.
type Ended = (bool, bool, usize, bool);

/// Serves a new office at these doors. None where that cannot be.
fn served<R: Threads + Wait + Sync, G: Gate + Sync>(
    rt: &R,
    alloc: Global,
    doors: &mut [MemDoor],
    gate: &G,
) -> Option<Ended>
    requires few { length doors.old ≤ 64 }
    requires suit { AllByRecursion (λ door. length door.coming ≤ 100000) doors.old }
{
    let office = opened(alloc, 0)?;
    match serve(rt, alloc, office, doors, gate) {
        Ok(
            Served {
                office,
                door_failed,
                settled,
            },
        ) => {
            let is_kept = matches!(settled, Ok(()));
            let entries = office.entries();
            let (count, begins) = (entries.len(), begins_with_an_answer(entries));
            let _keeper = office.into_keeper();
            Some((door_failed, is_kept, count, begins))
        }
        Err((office, OutOfMemory)) => {
            let _keeper = office.into_keeper();
            None
        }
    }
}

fn begins_with_an_answer(entries: &[Entry]) -> bool {
    match entries.first() {
        Some(entry) => matches!(entry.act, Act::Answer(_)),
        None => false,
    }
}

/// Whether an office is served at two doors whose workers wait for each other: first the withdrawal, then the cut.
fn hand_over<R: Threads + Wait + Sync>(rt: &R, alloc: Global) -> Option<bool> {
    let one = door(alloc, CUT)?;
    let two = door(alloc, LEAVE)?;
    let mut doors = [one, two];
    let gate = Handover::new();
    let ended = served(rt, alloc, &mut doors, &gate)?;
    let [one, two] = &doors;
    Some(
        ended == (false, true, 2, true)
            && gate.all_came()
            && gave_back(one, &[PUBLISHED])
            && gave_back(two, &[LEFT]),
    )
}

#[test]
fn two_workers_wait_for_each_other(rt: HostRuntime) {
    assert!(rt; hand_over(&rt, rt.alloc()) == Some(true));
}

/// Which call of the door fails, whether the office reports that a door failed, and how many links that door gave back.
const FAILING: [(u32, bool, usize); 4] = [
    (1, true, 0),
    (2, true, 1),
    (3, true, 2),
    // there is no fourth call
    (4, false, 2),
];

/// Whether that is so, with nothing written on the link that fails, and the link at the other door served.
fn fails_so<R: Threads + Wait + Sync>(
    rt: &R,
    alloc: Global,
    (call, failed, count): (u32, bool, usize),
) -> Option<bool> {
    let one = failing_door(alloc, call)?;
    let two = door(alloc, LEAVE)?;
    let mut doors = [one, two];
    let ended = served(rt, alloc, &mut doors, &OpenGate)?;
    let written = ["", AT_FIRST];
    let [one, two] = &doors;
    Some(
        ended == (failed, true, 1, true)
            && gave_back(one, written.get(..count)?)
            && gave_back(two, &[LEFT]),
    )
}

#[test]
fn a_door_that_fails_is_told(rt: HostRuntime) {
    for failing in FAILING {
        assert!(rt;
            fails_so(&rt, rt.alloc(), failing) == Some(true),
            "{}",
            failing.0
        );
    }
}
