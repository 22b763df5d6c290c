// An office is served, and writes how far it is.
ghost use Rattle.std.specs.Prelude.{◌≡◌, ◌≢◌, ◌≤◌, ◌⊎◌, ℕ, List, length, map};
ghost use Rattle.std.specs.List.{AllByRecursion};
ghost use Rattle.office_base.specs.Limits.{most_doors, most_connections};
ghost use Rattle.office_base.specs.Outside.{Rose, Appends};
ghost use Rattle.kept_rows.specs.Tables.{IsTold};
ghost use Rattle.office_moves.specs.History.{IsHistory};
ghost use Rattle.office_moves.specs.Stands.{Stand};
ghost use Rattle.door_crews.specs.Ending.{AllEnded, SomeRose};
ghost use Rattle.door_crews.specs.Served.{telling};
ghost use Rattle.office_http.specs.Serving.{DoorsServed};
ghost use Rattle.command_answers.specs.Ends.{BlamesSink};
ghost use Rattle.office_base.specs.Visible.{sink_of};
ghost use Rattle.season_commands.specs.Outside.{EndsWith};
ghost use Rattle.office_commands.specs.ServeBlames.{BlamesDoors};
ghost use Rattle.office_commands.specs.Doors.{doors_seen};
ghost use Rattle.office_commands.specs.Ending.{end_status, served_status};
ghost use Rattle.command_answers.specs.Writes.{Writes};
ghost use Rattle.office_commands.specs.Serve.{EndsServed, IsEndText, IsLastText};

use crate::telling::{served_text, write_served};
use command_answers::{Status, tell_keeper_fault, tell_no_memory};
use history_laws::laws::{keeps_its_word, runs_its_course};
use http_wire::Fault;
use keeper_mem::Keeper;
use office_base::{OutOfMemory, Sink};
use office_http::{OpenGate, Served, serve};
use office_links::Door;
use round_cut::Office;
use season_facts::says_what_is_sound;
use std::alloc::Global;
use std::sync::Wait;
use std::thread::Threads;

// The numbers of entries with which an office can be served are below this one.
const MOST_NUMBER: u64 = 1 << 40;

/// Serves an office at the doors, writes how far it is then, and returns its keeper.
/// If the office's last number is too high for it to be served, it reports that memory ran out.
/// If what waits at the end cannot be kept, it reports why, and not how far the office is.
pub(crate) fn serve_office<
    R: Threads + Wait + Sync,
    K: Sink,
    P: Keeper + Send,
    D: Door<Conn: Send> + Send,
>(rt: &R, alloc: Global, office: Office<P>, sink: &mut K, doors: &mut [D]) -> (Status, P)
    requires few { length doors.old ≤ most_doors }
    requires suit { AllByRecursion (λ d. D.to_come d ≤ most_connections) doors.old }
    ensures written { (output : List ℕ) × Appends output (K.written sink.old) (K.written sink.new)
        × EndsServed office.season office.entries (P.seen result.1).tables (doors_seen D.Door
        D.Conn.Link P.seen office.keeper result.1 doors.old doors.new) result.0 output }
    ensures told_before { IsTold (P.seen result.1).tables → IsTold (P.seen office.keeper).tables }
    ensures own { (result.0 ≡ Status.Ok) ⊎ ((result.0 ≡ Status.WriteFault)
        ⊎ ((result.0 ≡ Status.OutOfMemory) ⊎ ((result.0 ≡ Status.DoorFault)
        ⊎ (result.0 ≡ Status.KeeperFault)))) }
    ensures sink { BlamesSink result.0 (sink_of K.Sink sink.old) (sink_of K.Sink sink.new) }
    ensures doors { BlamesDoors (telling D.Door D.Conn.Link) doors.old doors.new result.0 }
    ensures keeper { ((P.seen office.keeper).faults ≤ (P.seen result.1).faults) × (result.0
        ≡ Status.KeeperFault → Rose (P.seen office.keeper).faults (P.seen result.1).faults) }
    ensures complete { ¬ Rose (K.faults sink.old) (K.faults sink.new)
        → ¬ Rose (P.seen office.keeper).faults (P.seen result.1).faults
        → ¬ SomeRose D.faults doors.old doors.new → EndsWith Status.Ok result.0 }
{
    let _entries = office.entries();
    if office.last_number() >= MOST_NUMBER {
        return (tell_no_memory(sink), office.into_keeper());
    }
    match serve(rt, alloc, office, doors, &OpenGate) {
        Ok(served) => tell_served(alloc, served, sink),
        Err((office, OutOfMemory)) => (tell_no_memory(sink), office.into_keeper()),
    }
}

/// Writes how far an office is that was served, or why what waited at the end could not be kept, and returns its keeper.
fn tell_served<K: Sink, P: Keeper>(alloc: Global, served: Served<P>, sink: &mut K) -> (Status, P)
    ensures written { (output : List ℕ) × Appends output (K.written sink.old) (K.written sink.new)
        × Writes (IsLastText served.settled served.office.season served.office.entries
        (P.seen result.1).tables served.door_failed) result.0 output }
    ensures same { result.1 ≡ served.office.keeper }
    ensures status { (result.0 ≡ end_status served.settled served.door_failed)
        ⊎ ((result.0 ≡ Status.OutOfMemory) ⊎ (result.0 ≡ Status.WriteFault)) }
    ensures sink { BlamesSink result.0 (sink_of K.Sink sink.old) (sink_of K.Sink sink.new) }
{
    let Served {
        office,
        door_failed,
        settled,
    } = served;
    match settled {
        Ok(()) => tell_kept(alloc, office, door_failed, sink),
        Err(Fault::Keeper) => (tell_keeper_fault(sink), office.into_keeper()),
        Err(Fault::Memory) => (tell_no_memory(sink), office.into_keeper()),
    }
}

/// Writes how far an office is that was served and of which all is kept, and returns its keeper.
fn tell_kept<K: Sink, P: Keeper>(
    alloc: Global,
    office: Office<P>,
    door_failed: bool,
    sink: &mut K,
) -> (Status, P)
    ensures written { (output : List ℕ) × Appends output (K.written sink.old) (K.written sink.new)
        × Writes (IsEndText office.season office.entries
        (P.seen result.1).tables door_failed) result.0 output }
    ensures same { result.1 ≡ office.keeper }
    ensures status { (result.0 ≡ served_status door_failed)
        ⊎ ((result.0 ≡ Status.OutOfMemory) ⊎ (result.0 ≡ Status.WriteFault)) }
    ensures sink { BlamesSink result.0 (sink_of K.Sink sink.old) (sink_of K.Sink sink.new) }
{
    says_what_is_sound(office.season());
    runs_its_course();
    keeps_its_word();
    let _entries = office.entries();
    let text = served_text(alloc, &office, door_failed);
    let status = write_served(sink, text, door_failed);
    (status, office.into_keeper())
}
