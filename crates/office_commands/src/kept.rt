// An office resumes from what a keeper holds, and is served.
ghost use Rattle.std.specs.Prelude.{◌≡◌, ◌≢◌, ◌≤◌, ◌⊎◌, ℕ, List, length};
ghost use Rattle.std.specs.List.{AllByRecursion};
ghost use Rattle.office_base.specs.Limits.{most_doors, most_connections};
ghost use Rattle.office_base.specs.Outside.{Rose, Appends};
ghost use Rattle.kept_rows.specs.Tables.{still};
ghost use Rattle.door_crews.specs.Ending.{SomeRose};
ghost use Rattle.door_crews.specs.Served.{telling};
ghost use Rattle.command_answers.specs.Ends.{BlamesSink};
ghost use Rattle.office_base.specs.Visible.{sink_of};
ghost use Rattle.season_commands.specs.Outside.{EndsWith, outside_of};
ghost use Rattle.resume_command.specs.Resume.{JudgesRecords, TellsSound};
ghost use Rattle.office_commands.specs.ServeBlames.{BlamesDoors, BlamesKeeper};
ghost use Rattle.office_commands.specs.Doors.{doors_seen};
ghost use Rattle.office_commands.specs.Serve.{EndsServeKept};

use crate::serving::serve_office;
use command_answers::Status;
use keeper_mem::Keeper;
use office_base::Sink;
use office_links::Door;
use resume_command::resume_office;
use std::alloc::Global;
use std::sync::Wait;
use std::thread::Threads;

/// Resumes the office that the keeper holds, serves it at the doors, writes how far it is then, and returns the keeper.
/// It reads no source. There are at most 64 doors, each with at most 100,000 connections still to come.
pub fn serve_kept<R: Threads + Wait + Sync, K: Sink, P: Keeper + Send, D: Door<Conn: Send> + Send>(
    rt: &R,
    alloc: Global,
    sink: &mut K,
    keeper: P,
    doors: &mut [D],
) -> (Status, P)
    requires few { length doors.old ≤ most_doors }
    requires suit { AllByRecursion (λ d. D.to_come d ≤ most_connections) doors.old }
    ensures written { (output : List ℕ) × Appends output (K.written sink.old) (K.written sink.new)
        × EndsServeKept (P.seen keeper).tables (P.seen result.1).tables (doors_seen D.Door
        D.Conn.Link P.seen keeper result.1 doors.old doors.new) result.0 output }
    ensures no_read_fault { result.0 ≢ Status.ReadFault }
    ensures sink { BlamesSink result.0 (sink_of K.Sink sink.old) (sink_of K.Sink sink.new) }
    ensures keeper { BlamesKeeper (λ status. (status ≡ Status.BadInput) ⊎ (status ≡ Status.Differs))
        (P.seen keeper).faults (P.seen result.1).faults result.0 }
    ensures doors { BlamesDoors (telling D.Door D.Conn.Link) doors.old doors.new result.0 }
    ensures records { JudgesRecords (outside_of K.Sink P.Keeper sink.old keeper)
        (outside_of K.Sink P.Keeper sink.new result.1) result.0 }
    ensures complete { TellsSound (still (P.seen keeper).tables (P.seen result.1).tables)
        → ¬ Rose (K.faults sink.old) (K.faults sink.new) → ¬ Rose (P.seen keeper).faults (P.seen
        result.1).faults → ¬ SomeRose D.faults doors.old doors.new → EndsWith Status.Ok result.0 }
{
    match resume_office(alloc, sink, keeper) {
        Ok(office) => serve_office(rt, alloc, office, sink, doors),
        Err(ended) => ended,
    }
}
