// The doors of an office, served at once.
ghost use Rattle.std.specs.Prelude.{◌≡◌, ◌≤◌, ◌<◌, ◌^◌, [], length, IfOk, IfErr, OnErr};
ghost use Rattle.std.specs.List.{AllByRecursion};
ghost use Rattle.office_base.specs.Limits.{most_doors, most_connections};
ghost use Rattle.door_crews.specs.Served.{telling};
ghost use Rattle.kept_rows.specs.Tables.{IsTold};
ghost use Rattle.office_desk.specs.Words.{belongs, count_of, left_of, origin_of, seen_of, shares_of, tickets_of};
ghost use Rattle.office_http.specs.Serving.{Serves};
ghost use Rattle.proceedings.specs.Proceeding.{last_of};

use crate::hands::{DeskWorker, Shared};
use crate::{DeskOffice, TablesBefore};
use door_crews::work_all;
use http_sessions::{Buffers, Gate};
use http_wire::Fault;
use keeper_mem::Keeper;
use office_base::OutOfMemory;
use office_desk::{Desk, Pass};
use office_links::Door;
use round_cut::Office;
use std::alloc::Global;
use std::marker::Brand;
use std::sync::Wait;
use std::thread::Threads;

/// An office that was served, whether a door of it failed, and whether all that it accepted is kept.
pub struct Served<K: Keeper> {
    pub office: Office<K>,
    pub door_failed: bool,
    /// Why what waited at the end could not be kept, if so: a crash may take it back. Nobody was answered who could have
    /// seen any of it.
    pub settled: Result<(), Fault>,
}

/// Serves an office to all doors at once. Each door has one worker, who takes its connections one after another.
/// The worker holds a session on each and gives it back, until the door has none or fails.
/// Workers are numbered from 0 in the order of the doors. It returns when all have ended.
/// If no thread can be made, they work one after another.
/// At the end it keeps what still waits. An answer is given only once all that it could have seen is kept.
/// There are at most 64 doors, each with at most 100,000 connections still to come,
/// and the last number of the office is below 2^40.
/// It returns `OutOfMemory` only before the first connection is taken, with the office unchanged.
pub fn serve<
    R: Threads + Wait + Sync,
    K: Keeper + Send,
    D: Door<Conn: Send> + Send,
    G: Gate + Sync,
>(
    rt: &R,
    alloc: Global,
    office: Office<K>,
    doors: &mut [D],
    gate: &G,
) -> Result<Served<K>, (Office<K>, OutOfMemory)>
    requires few { length doors.old ≤ most_doors }
    requires suit { AllByRecursion (λ door. D.to_come door ≤ most_connections) doors.old }
    requires last { last_of office.entries < 2 ^ 40 }
    ensures served { IfOk result (λ served. Serves K.seen (telling D.Door D.Conn.Link)
        office served.office served.door_failed served.settled doors.old doors.new) }
    ensures told_before { IfOk result (λ served. IsTold (K.seen served.office.keeper).tables
        → IsTold (K.seen office.keeper).tables) }
    ensures err { IfErr result (λ refused. refused.0 ≡ office) }
    ensures spared { OnErr result (doors.new ≡ doors.old) }
{
    serve_stood::<Brand, R, K, D, G>(rt, alloc, office, doors, gate)
}

/// Serves in the same way, with the keeper's visible tables at the beginning named,
/// so that the office at the desk can remember them.
fn serve_stood<
    B: TablesBefore + Send + Sync,
    R: Threads + Wait + Sync,
    K: Keeper + Send,
    D: Door<Conn: Send> + Send,
    G: Gate + Sync,
>(
    rt: &R,
    alloc: Global,
    office: Office<K>,
    doors: &mut [D],
    gate: &G,
) -> Result<Served<K>, (Office<K>, OutOfMemory)>
    requires tells { ((K.seen office.keeper).tables ≡ B.tables)
        × ((K.seen office.keeper).kept ≡ B.kept) }
    requires few { length doors.old ≤ most_doors }
    requires suit { AllByRecursion (λ door. D.to_come door ≤ most_connections) doors.old }
    requires last { last_of office.entries < 2 ^ 40 }
    ensures served { IfOk result (λ served. Serves K.seen (telling D.Door D.Conn.Link)
        office served.office served.door_failed served.settled doors.old doors.new) }
    ensures told_before { IfOk result (λ served. IsTold (K.seen served.office.keeper).tables
        → IsTold (K.seen office.keeper).tables) }
    ensures err { IfErr result (λ refused. refused.0 ≡ office) }
    ensures spared { OnErr result (doors.new ≡ doors.old) }
{
    let Ok(mut buffers) = make_buffers(alloc, doors.len()) else {
        return Err((office, OutOfMemory));
    };
    match Desk::begin(alloc, DeskOffice::<K, B>::new(alloc, office)) {
        Ok((desk, pass)) => Ok(serve_desk(rt, alloc, desk, pass, doors, gate, &mut buffers)),
        Err((stood, want)) => Err((stood.into_office(), want)),
    }
}

/// Serves the doors with turns at a desk that has just begun, ends it, and keeps what still waits.
/// The crew begins as one worker with the whole pass and with no entries of its own.
fn serve_desk<
    B: TablesBefore + Send + Sync,
    R: Threads + Wait + Sync,
    K: Keeper + Send,
    D: Door<Conn: Send> + Send,
    G: Gate + Sync,
>(
    rt: &R,
    alloc: Global,
    desk: Desk<DeskOffice<K, B>>,
    pass: Pass<DeskOffice<K, B>>,
    doors: &mut [D],
    gate: &G,
    buffers: &mut [Buffers],
) -> Served<K>
    requires few { length doors.old ≤ most_doors }
    requires as_many { length buffers.old ≡ length doors.old }
    requires suit { AllByRecursion (λ door. D.to_come door ≤ most_connections) doors.old }
    requires begun { (K.seen (origin_of desk).office.keeper).kept ≡ B.kept }
    requires whole { belongs desk pass × (shares_of pass ≡ 2 ^ 30) × (left_of pass ≡ 2 ^ 40) }
    requires first { (tickets_of pass ≡ []) × (seen_of pass ≡ (origin_of desk).office.entries)
        × (count_of pass ≡ (K.seen (origin_of desk).office.keeper).faults) }
    ensures served { Serves K.seen (telling D.Door D.Conn.Link)
        (origin_of desk).office result.office result.door_failed result.settled
        doors.old doors.new }
    ensures told { IsTold (K.seen result.office.keeper).tables → IsTold B.tables }
{
    let mut hand = DeskWorker {
        pass,
        failed: false,
    };
    let shop = Shared {
        alloc,
        desk: &desk,
        gate,
    };
    work_all(rt, &shop, 0, &mut hand, doors, buffers);
    let DeskWorker { pass, failed } = hand;
    let mut stood = desk.close(pass);
    let settled = stood.settle();
    Served {
        office: stood.into_office(),
        door_failed: failed,
        settled,
    }
}

/// Makes buffers for this many workers.
fn make_buffers(alloc: Global, count: usize) -> Result<Vec<Buffers>, OutOfMemory>
    ensures { IfOk result (λ buffers. length buffers.items ≡ count) }
{
    let mut buffers = Vec::with_capacity(alloc, count)?;
    for _ in 0..count {
        buffers.push(Buffers::new(alloc)?)?;
    }
    Ok(buffers)
}
