// The command `run`: it reads a season bundle with its requests and begins an office over the given keeper.
// It answers the requests one after another, and writes each reply before it handles the next request.
ghost use Rattle.std.specs.Prelude.{◌≡◌, ◌≢◌, ◌≤◌, ◌⊎◌, ℕ, List, [], true, take, IsErrOf};
ghost use Rattle.office_base.specs.Outside.{Rose, IsAtEnd, Appends};
ghost use Rattle.season_file.specs.Season.{IsSeason};
ghost use Rattle.kept_rows.specs.Tables.{still};
ghost use Rattle.office_moves.specs.Stands.{Stand};
ghost use Rattle.office_moves.specs.State.{opening};
ghost use Rattle.command_answers.specs.Answers.{IsFailureOf, Tells};
ghost use Rattle.season_commands.specs.Check.{IsBundle, IsFaultyBundle, bundle_answers};
ghost use Rattle.office_base.specs.Visible.{source_of};
ghost use Rattle.season_commands.specs.Outside.{Outputs, outside_of};
ghost use Rattle.season_commands.specs.Run.{EndsRun, EndsSeason, RunsInput, RunsScript, begin_status, begin_text};
ghost use Rattle.command_answers.specs.Writes.{IsTextOut};

use crate::bundle::read_bundle;
use crate::laws::one_bundle_answer;
use crate::office::run_office;
use command_answers::{Status, tell_failure, tell_keeper_fault, tell_no_memory, write_answer};
use keeper_mem::Keeper;
use office_asks::Request;
use office_base::{Sink, Source};
use round_cut::{BeginFault, Office};
use season_file::Season;
use std::alloc::Global;

/// Runs the season of the bundle that the source gives over the keeper. It returns the keeper.
pub fn run_season<S: Source, K: Sink, P: Keeper>(
    alloc: Global,
    source: &mut S,
    sink: &mut K,
    keeper: P,
) -> (Status, P)
    ensures written { Outputs (EndsRun (S.left source.old)) (outside_of K.Sink P.Keeper
        sink.old keeper) (outside_of K.Sink P.Keeper sink.new result.1) result.0 }
    ensures runs { RunsInput (IsBundle true) (IsFaultyBundle true) (source_of S.Source source.old)
        (source_of S.Source source.new) (outside_of K.Sink P.Keeper sink.old keeper)
        (outside_of K.Sink P.Keeper sink.new result.1) result.0 }
{
    one_bundle_answer();
    match read_bundle(alloc, source, true) {
        Ok((season, script)) => run_script(alloc, season, script.as_slice(), sink, keeper),
        Err(failure) => (tell_failure(sink, failure), keeper),
    }
}

/// Answers the requests in the season, which the keeper holds from now on.
pub fn run_script<K: Sink, P: Keeper>(
    alloc: Global,
    season: Season,
    script: &[Request],
    sink: &mut K,
    keeper: P,
) -> (Status, P)
    requires { IsSeason season.text season }
    ensures written { Outputs (EndsSeason season script.now) (outside_of K.Sink P.Keeper
        sink.old keeper) (outside_of K.Sink P.Keeper sink.new result.1) result.0 }
    ensures runs { RunsScript (outside_of K.Sink P.Keeper sink.old keeper)
        (outside_of K.Sink P.Keeper sink.new result.1) result.0 }
{
    match Office::begin(alloc, season, keeper) {
        Ok(office) => run_office(alloc, office, script, sink),
        Err((keeper, fault)) => (tell_unbegun(sink, fault), keeper),
    }
}

/// Writes why no office began.
pub fn tell_unbegun<K: Sink>(sink: &mut K, fault: BeginFault) -> Status
    ensures told { IsTextOut (begin_status fault) (begin_text fault) (K.written sink.old)
        (K.written sink.new) (Rose (K.faults sink.old) (K.faults sink.new)) result }
    ensures steady { result ≢ Status.WriteFault → K.faults sink.new ≡ K.faults sink.old }
{
    match fault {
        BeginFault::NotEmpty => {
            write_answer(sink, b"fault: keeper holds a season\n", Status::BadInput)
        }
        BeginFault::KeeperFault => tell_keeper_fault(sink),
        BeginFault::OutOfMemory => tell_no_memory(sink),
    }
}
