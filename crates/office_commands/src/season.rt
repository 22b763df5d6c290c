// An office begins with the season of the bundle that a source gives, over a keeper that holds none, and is served.
ghost use Rattle.std.specs.Prelude.{◌≡◌, ◌≢◌, ◌≤◌, ◌⊎◌, ℕ, List, length};
ghost use Rattle.std.specs.List.{AllByRecursion};
ghost use Rattle.office_base.specs.Limits.{most_doors, most_connections};
ghost use Rattle.office_base.specs.Outside.{Rose, IsAtEnd, Appends};
ghost use Rattle.season_file.specs.Season.{IsSeason};
ghost use Rattle.kept_rows.specs.Tables.{still};
ghost use Rattle.door_crews.specs.Ending.{SomeRose};
ghost use Rattle.door_crews.specs.Served.{telling};
ghost use Rattle.season_commands.specs.Run.{TellsNoSeason, TellsSeason};
ghost use Rattle.command_answers.specs.Ends.{BlamesSink};
ghost use Rattle.office_base.specs.Visible.{sink_of, source_of};
ghost use Rattle.season_commands.specs.Outside.{BlamesSource, EndsWith, outside_of};
ghost use Rattle.office_commands.specs.ServeBlames.{BlamesDoors, BlamesKeeper};
ghost use Rattle.office_commands.specs.Doors.{doors_seen};
ghost use Rattle.office_commands.specs.Serve.{AnswersBundle, EndsBegun, EndsServe};

use crate::serving::serve_office;
use command_answers::{Status, tell_failure};
use keeper_mem::Keeper;
use office_base::{Sink, Source};
use office_links::Door;
use round_cut::Office;
use season_commands::laws::one_bundle_answer;
use season_commands::{read_bundle, tell_unbegun};
use season_file::Season;
use std::alloc::Global;
use std::sync::Wait;
use std::thread::Threads;

/// Begins an office over the keeper with the season that the source gives, a bundle without requests.
/// Serves it at the doors, writes how far it is then, and returns the keeper.
/// There are at most 64 doors, each with at most 100,000 connections still to come.
pub fn serve_season<
    R: Threads + Wait + Sync,
    S: Source,
    K: Sink,
    P: Keeper + Send,
    D: Door<Conn: Send> + Send,
>(rt: &R, alloc: Global, source: &mut S, sink: &mut K, keeper: P, doors: &mut [D]) -> (Status, P)
    requires few { length doors.old ≤ most_doors }
    requires suit { AllByRecursion (λ d. D.to_come d ≤ most_connections) doors.old }
    ensures written { (output : List ℕ) × Appends output (K.written sink.old) (K.written sink.new)
        × EndsServe (S.left source.old) (P.seen keeper).tables (P.seen result.1).tables (doors_seen
        D.Door D.Conn.Link P.seen keeper result.1 doors.old doors.new) result.0 output }
    ensures read_whole { (result.0 ≡ Status.Ok) ⊎ (result.0 ≡ Status.DoorFault)
        → IsAtEnd (S.left source.new) }
    ensures no_difference { result.0 ≢ Status.Differs }
    ensures read_blamed { BlamesSource result.0 (source_of S.Source source.old)
        (source_of S.Source source.new) }
    ensures sink { BlamesSink result.0 (sink_of K.Sink sink.old) (sink_of K.Sink sink.new) }
    ensures keeper { BlamesKeeper (λ status. (status ≡ Status.BadInput)
        ⊎ (status ≡ Status.ReadFault)) (P.seen keeper).faults (P.seen result.1).faults result.0 }
    ensures doors { BlamesDoors (telling D.Door D.Conn.Link) doors.old doors.new result.0 }
    ensures answers { AnswersBundle (source_of S.Source source.old) (source_of S.Source source.new)
        (outside_of K.Sink P.Keeper sink.old keeper) (outside_of K.Sink P.Keeper sink.new result.1)
        (SomeRose D.faults doors.old doors.new) result.0 }
{
    one_bundle_answer();
    match read_bundle(alloc, source, false) {
        Ok((season, _)) => begin_and_serve(rt, alloc, season, sink, keeper, doors),
        Err(failure) => (tell_failure(sink, failure), keeper),
    }
}

/// Begins an office with the season, which the keeper holds from now on, and serves it.
fn begin_and_serve<R: Threads + Wait + Sync, K: Sink, P: Keeper + Send, D: Door<Conn: Send> + Send>(
    rt: &R,
    alloc: Global,
    season: Season,
    sink: &mut K,
    keeper: P,
    doors: &mut [D],
) -> (Status, P)
    requires season { IsSeason season.text season }
    requires few { length doors.old ≤ most_doors }
    requires suit { AllByRecursion (λ d. D.to_come d ≤ most_connections) doors.old }
    ensures written { (output : List ℕ) × Appends output (K.written sink.old) (K.written sink.new)
        × EndsBegun season (P.seen keeper).tables (P.seen result.1).tables (doors_seen D.Door
        D.Conn.Link P.seen keeper result.1 doors.old doors.new) result.0 output }
    ensures no_read_fault { result.0 ≢ Status.ReadFault }
    ensures no_difference { result.0 ≢ Status.Differs }
    ensures sink { BlamesSink result.0 (sink_of K.Sink sink.old) (sink_of K.Sink sink.new) }
    ensures keeper { BlamesKeeper (λ status. status ≡ Status.BadInput)
        (P.seen keeper).faults (P.seen result.1).faults result.0 }
    ensures doors { BlamesDoors (telling D.Door D.Conn.Link) doors.old doors.new result.0 }
    ensures complete { TellsNoSeason (still (P.seen keeper).tables (P.seen result.1).tables)
        → ¬ Rose (K.faults sink.old) (K.faults sink.new) → ¬ Rose (P.seen keeper).faults (P.seen
        result.1).faults → ¬ SomeRose D.faults doors.old doors.new → EndsWith Status.Ok result.0 }
    ensures not_empty { TellsSeason (still (P.seen keeper).tables (P.seen result.1).tables)
        → ¬ Rose (K.faults sink.old) (K.faults sink.new) → ¬ Rose (P.seen keeper).faults
        (P.seen result.1).faults → EndsWith Status.BadInput result.0 }
{
    match Office::begin(alloc, season, keeper) {
        Ok(office) => serve_office(rt, alloc, office, sink, doors),
        Err((keeper, fault)) => (tell_unbegun(sink, fault), keeper),
    }
}
