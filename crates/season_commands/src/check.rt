// The command `check`: it reads a season bundle with its requests, if it has some, and answers how much the season has.
ghost use Rattle.std.specs.Prelude.{◌≡◌, ◌≤◌, IfOk, IfErr, OnOk, IsErrOf};
ghost use Rattle.office_base.specs.Outside.{Rose, IsAtEnd};
ghost use Rattle.command_answers.specs.Answers.{HasLeft, IsFailureOf};
ghost use Rattle.season_commands.specs.Check.{check_answers};

use crate::bundle::read_bundle;
use command_answers::Failure;
use office_base::{Source, Text};
use season_texts::counts_text;
use std::alloc::Global;

/// Returns the output of `check` for the bundle that the source gives.
#[tactic(auto, using(crate::proofs::CheckFaults::check_failed))]
pub fn check_answer<S: Source>(alloc: Global, source: &mut S) -> Result<Text, Failure>
    ensures output { IfOk result (HasLeft check_answers.IsOutput (S.left source.old)) }
    ensures ended { OnOk result (IsAtEnd (S.left source.new)) }
    ensures failure { IfErr result (IsFailureOf check_answers (S.left source.old)
        (Rose (S.faults source.old) (S.faults source.new))) }
    ensures count { S.faults source.old ≤ S.faults source.new }
    ensures steady { ¬ IsErrOf result Failure.Read → S.faults source.new ≡ S.faults source.old }
{
    let (season, _) = read_bundle(alloc, source, true)?;
    Ok(counts_text(alloc, &season)?)
}
