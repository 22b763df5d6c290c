// The bundle that `check`, `run` and `serve` read.
ghost use Rattle.std.specs.Prelude.{◌≡◌, ◌≤◌, IfOk, IfErr, OnOk, IsErrOf};
ghost use Rattle.office_base.specs.Outside.{Rose, IsAtEnd};
ghost use Rattle.season_file.specs.Season.{IsSeason};
ghost use Rattle.command_answers.specs.Answers.{IsFailureOf};
ghost use Rattle.season_commands.specs.Check.{IsLeftBundle, TellsSeasonFault, bundle_answers};

use command_answers::Failure;
use office_base::{OutOfMemory, Source};
use request_rows::Script;
use season_file::{Season, SeasonFault};
use season_texts::fault_text;
use std::alloc::Global;

/// Reads the season and the requests of the bundle that the source gives.
/// Unless `requests` allows them, their section is a fault.
pub fn read_bundle<S: Source>(
    alloc: Global,
    source: &mut S,
    requests: bool,
) -> Result<(Season, Script), Failure>
    ensures bundle { IfOk result (λ read. IsLeftBundle requests (S.left source.old) read.0 read.1) }
    ensures text { IfOk result (λ read. IsSeason read.0.text read.0) }
    ensures ended { OnOk result (IsAtEnd (S.left source.new)) }
    ensures failure { IfErr result (IsFailureOf (bundle_answers requests) (S.left source.old)
        (Rose (S.faults source.old) (S.faults source.new))) }
    ensures count { S.faults source.old ≤ S.faults source.new }
    ensures steady { ¬ IsErrOf result Failure.Read → S.faults source.new ≡ S.faults source.old }
{
    match Season::read(alloc, source, requests) {
        Ok(read) => Ok(read),
        Err(fault) => Err(bundle_failure(alloc, fault)),
    }
}

/// Returns the failure that reports why there is no season.
pub fn bundle_failure(alloc: Global, fault: SeasonFault) -> Failure
    ensures { TellsSeasonFault fault result }
{
    match fault {
        SeasonFault::ReadFault => Failure::Read,
        SeasonFault::OutOfMemory => Failure::NoMemory,
        _ => match fault_text(alloc, fault) {
            Ok(line) => Failure::Bad(line),
            Err(OutOfMemory) => Failure::NoMemory,
        },
    }
}
