// The command that runs a generated season. An office begins over the given keeper and answers the requests of the
// generated bundle one after another.
// It writes no reply. When all are answered, it writes a summary.
ghost use Rattle.std.specs.Prelude.{◌≡◌, ◌≢◌, ◌≤◌, ◌⊎◌, true, IfOk, IsErrOf};
ghost use Rattle.office_base.specs.Limits.{most_generated};
ghost use Rattle.office_base.specs.Outside.{Fails, Rose};
ghost use Rattle.office_base.specs.Visible.{sink_of};
ghost use Rattle.season_file.specs.Season.{IsSeason, IsSeasonWith};
ghost use Rattle.kept_rows.specs.Tables.{IsTold};
ghost use Rattle.office_moves.specs.History.{IsHistory};
ghost use Rattle.office_moves.specs.Stands.{Stand};
ghost use Rattle.office_moves.specs.State.{opening};
ghost use Rattle.season_generator.specs.Bundle.{generated};
ghost use Rattle.command_answers.specs.Writes.{WritesFor};
ghost use Rattle.season_commands.specs.Generated.{EndsGeneratedRun, IsCountedText, IsSummed, StandsForAll, StandsForFirst};
ghost use Rattle.season_commands.specs.Outside.{BlamesOffice, EndsWith, Outputs, outside_of};
ghost use Rattle.season_commands.specs.Run.{RunsScript};

use crate::run::tell_unbegun;
use crate::summed::{tallied_text, write_summary};
use crate::tally::count_all;
use command_answers::{Status, tell_no_memory};
use keeper_mem::Keeper;
use office_asks::Request;
use office_base::{OutOfMemory, Sink, Text};
use request_rows::Script;
use round_cut::{Office, OfficeFault};
use season_file::{Season, SeasonFault};
use season_generator::generate;
use season_generator::laws::generated_has_no_fault;
use std::alloc::Global;

/// Runs the season of `n` candidates, from 1 to 100,000, that the seed gives over the keeper, and writes its summary.
/// It returns the keeper.
/// It writes nothing before the last request is answered.
pub fn run_generated<K: Sink, P: Keeper>(
    alloc: Global,
    n: u32,
    seed: u32,
    sink: &mut K,
    keeper: P,
) -> (Status, P)
    requires low { 1 ≤ n }
    requires high { n ≤ most_generated }
    ensures written { Outputs (EndsGeneratedRun n seed) (outside_of K.Sink P.Keeper sink.old keeper)
        (outside_of K.Sink P.Keeper sink.new result.1) result.0 }
    ensures runs { RunsScript (outside_of K.Sink P.Keeper sink.old keeper)
        (outside_of K.Sink P.Keeper sink.new result.1) result.0 }
{
    match read_generated(alloc, n, seed) {
        Ok((season, script)) => match Office::begin(alloc, season, keeper) {
            Ok(office) => count_office(alloc, n, seed, office, script.as_slice(), sink),
            Err((keeper, fault)) => (tell_unbegun(sink, fault), keeper),
        },
        Err(OutOfMemory) => (tell_no_memory(sink), keeper),
    }
}

/// Returns the season of the generated bundle, and its requests. The bundle has no fault.
fn read_generated(alloc: Global, n: u32, seed: u32) -> Result<(Season, Script), OutOfMemory>
    requires low { 1 ≤ n }
    requires high { n ≤ most_generated }
    ensures season { IfOk result (λ read. IsSeasonWith true (generated n seed) read.0 read.1) }
    ensures text { IfOk result (λ read. IsSeason read.0.text read.0) }
{
    generated_has_no_fault();
    let bundle = generate(alloc, n, seed)?;
    match Season::of_text(alloc, bundle, true) {
        Ok(read) => Ok(read),
        Err(fault) => match fault {
            SeasonFault::OutOfMemory => Err(OutOfMemory),
            _ => unreachable!("a generated bundle has no fault"),
        },
    }
}

/// Answers the requests over an office that has answered none, writes the summary or why there is none, and returns its
/// keeper.
fn count_office<K: Sink, P: Keeper>(
    alloc: Global,
    n: u32,
    seed: u32,
    mut office: Office<P>,
    script: &[Request],
    sink: &mut K,
) -> (Status, P)
    requires opening { office.state ≡ opening }
    requires history { IsHistory office.season office.entries office.state }
    requires stands { Stand office.season office.state (P.seen office.keeper).tables }
    ensures written { WritesFor (IsCountedText n seed office.season script.now
        (P.seen result.1).tables) (sink_of K.Sink sink.old) (sink_of K.Sink sink.new) result.0 }
    ensures told_before { IsTold (P.seen result.1).tables → IsTold (P.seen office.keeper).tables }
    ensures no_read_fault { result.0 ≢ Status.ReadFault }
    ensures blamed { BlamesOffice result.0 (outside_of K.Sink P.Keeper sink.old office.keeper)
        (outside_of K.Sink P.Keeper sink.new result.1) }
    ensures complete { ¬ Rose (K.faults sink.old) (K.faults sink.new)
        → ¬ Rose (P.seen office.keeper).faults (P.seen result.1).faults
        → EndsWith Status.Ok result.0 }
{
    let summary = counted_text(alloc, n, seed, &mut office, script);
    let status = write_summary(sink, summary);
    (status, office.into_keeper())
}

/// Returns the summary of the requests, answered over an office that has answered none.
fn counted_text<P: Keeper>(
    alloc: Global,
    n: u32,
    seed: u32,
    office: &mut Office<P>,
    script: &[Request],
) -> Result<Text, OfficeFault>
    requires opening { office.old.state ≡ opening }
    requires history { IsHistory office.old.season office.old.entries office.old.state }
    requires stands { Stand office.old.season office.old.state (P.seen office.old.keeper).tables }
    ensures summed { IfOk result
        (IsSummed n seed office.old.season script.now (P.seen office.new.keeper).tables) }
    ensures keeper { IsErrOf result OfficeFault.KeeperFault
        → StandsForFirst office.old.season script.now (P.seen office.new.keeper).tables }
    ensures memory { IsErrOf result OfficeFault.OutOfMemory
        → StandsForFirst office.old.season script.now (P.seen office.new.keeper).tables
        ⊎ StandsForAll office.old.season script.now (P.seen office.new.keeper).tables }
    ensures told_before { IsTold (P.seen office.new.keeper).tables
        → IsTold (P.seen office.old.keeper).tables }
    ensures blamed { Fails (IsErrOf result OfficeFault.KeeperFault)
        (P.seen office.old.keeper).faults (P.seen office.new.keeper).faults }
{
    match count_all(alloc, office, script) {
        Ok(tally) => match tallied_text(alloc, n, seed, office, tally) {
            Ok(text) => Ok(text),
            Err(OutOfMemory) => Err(OfficeFault::OutOfMemory),
        },
        Err(fault) => Err(fault),
    }
}
