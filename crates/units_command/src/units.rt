// The command `units`: it reads a bundle with units, and runs the plain bundle that results over the given keeper.
ghost use Rattle.std.specs.Prelude.{◌≡◌, ◌≤◌, IfOk, IfErr, OnOk, IsErrOf};
ghost use Rattle.office_base.specs.Outside.{Rose, IsAtEnd};
ghost use Rattle.office_base.specs.Visible.{source_of};
ghost use Rattle.season_file.specs.Season.{IsSeason};
ghost use Rattle.command_answers.specs.Answers.{IsFailureOf};
ghost use Rattle.season_commands.specs.Outside.{Outputs, outside_of};
ghost use Rattle.season_commands.specs.Run.{RunsInput};
ghost use Rattle.units_command.specs.Units.{EndsUnits, IsFaultyUnits, IsLeftExpansion, IsUnitsInput, units_answers};

use crate::laws::{one_units_answer, seats_right};
use crate::telling::unit_failure;
use command_answers::{Failure, Status, tell_failure};
use keeper_mem::Keeper;
use office_base::{Sink, Source};
use quota_units::expand;
use request_rows::Script;
use season_commands::{bundle_failure, run_script};
use season_file::Season;
use std::alloc::Global;

/// Reads the season and the requests of the plain bundle that the bytes of a source result in.
fn read_units<S: Source>(alloc: Global, source: &mut S) -> Result<(Season, Script), Failure>
    ensures bundle { IfOk result (λ read. IsLeftExpansion (S.left source.old) read.0 read.1) }
    ensures text { IfOk result (λ read. IsSeason read.0.text read.0) }
    ensures ended { OnOk result (IsAtEnd (S.left source.new)) }
    ensures failure { IfErr result (IsFailureOf units_answers (S.left source.old)
        (Rose (S.faults source.old) (S.faults source.new))) }
    ensures count { S.faults source.old ≤ S.faults source.new }
    ensures steady { ¬ IsErrOf result Failure.Read → S.faults source.new ≡ S.faults source.old }
{
    let text = match expand(alloc, source) {
        Ok(text) => text,
        Err(fault) => return Err(unit_failure(alloc, fault)),
    };
    match Season::of_text(alloc, text, true) {
        Ok((season, script)) => {
            seats_right();
            Ok((season, script))
        }
        Err(fault) => Err(bundle_failure(alloc, fault)),
    }
}

/// Runs the season of the plain bundle that the bytes of the source result in over the keeper. It returns the keeper.
pub fn units_season<S: Source, K: Sink, P: Keeper>(
    alloc: Global,
    source: &mut S,
    sink: &mut K,
    keeper: P,
) -> (Status, P)
    ensures written { Outputs (EndsUnits (S.left source.old)) (outside_of K.Sink P.Keeper
        sink.old keeper) (outside_of K.Sink P.Keeper sink.new result.1) result.0 }
    ensures runs { RunsInput IsUnitsInput IsFaultyUnits (source_of S.Source source.old)
        (source_of S.Source source.new) (outside_of K.Sink P.Keeper sink.old keeper)
        (outside_of K.Sink P.Keeper sink.new result.1) result.0 }
{
    one_units_answer();
    match read_units(alloc, source) {
        Ok((season, script)) => run_script(alloc, season, script.as_slice(), sink, keeper),
        Err(failure) => (tell_failure(sink, failure), keeper),
    }
}
