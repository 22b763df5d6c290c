// The command `step`: it reads a step sheet and answers whom the step admits.
ghost use Rattle.std.specs.Prelude.{◌<◌, ℕ, List, length, IfOk, IfErr};
ghost use Rattle.office_base.specs.Limits.{most_sheet_bytes};
ghost use Rattle.step_command.specs.Output.{fault_output};
ghost use Rattle.command_answers.specs.Answers.{Answer, IsInputFailure, Reads, TellsLine};
ghost use Rattle.office_base.specs.Visible.{source_of};
ghost use Rattle.step_command.specs.Sheet.{SheetGives};
ghost use Rattle.step_command.specs.Step.{IsLeftSheet, IsSoundStep, IsStepText, step_answers};

use crate::{SheetError, SheetFault, SheetKind, fault_text, read_sheet, step_text};
use command_answers::Failure;
use merit_choice::choose;
use office_base::limits::MOST_SHEET_BYTES;
use office_base::{OutOfMemory, ReadFault, Source, Step, Text, read_whole};
use std::alloc::Global;

/// Returns the output of `step` for the sheet that the source gives.
pub fn step_answer<S: Source>(alloc: Global, source: &mut S) -> Result<Text, Failure>
    ensures { Answer step_answers (source_of S.Source source.old)
        (source_of S.Source source.new) result }
{
    let step = step_input(alloc, source)?;
    Ok(list_of(alloc, &step)?)
}

/// Reads the input of `step`: the step of the sheet that the source gives.
fn step_input<S: Source>(alloc: Global, source: &mut S) -> Result<Step, Failure>
    ensures read { Reads step_answers IsLeftSheet (source_of S.Source source.old)
        (source_of S.Source source.new) result }
    ensures sound { IfOk result IsSoundStep }
{
    match read_whole(alloc, source, MOST_SHEET_BYTES) {
        Ok(bytes) => sheet_step(alloc, bytes.as_slice()),
        Err(ReadFault::TooLong) => Err(too_long(alloc)),
        Err(ReadFault::Failed) => Err(Failure::Read),
        Err(ReadFault::OutOfMemory) => Err(Failure::NoMemory),
    }
}

/// Reads the step of the bytes of a sheet.
fn sheet_step(alloc: Global, bytes: &[u8]) -> Result<Step, Failure>
    ensures sheet { IfOk result (SheetGives bytes.now) }
    ensures sound { IfOk result IsSoundStep }
    ensures failure { IfErr result (IsInputFailure step_answers bytes.now) }
{
    match read_sheet(alloc, bytes) {
        Ok(step) => Ok(step),
        Err(SheetError::Bad(fault)) => Err(sheet_failure(alloc, &fault)),
        Err(SheetError::OutOfMemory) => Err(Failure::NoMemory),
    }
}

/// Returns the output of `step`: whom a step admits.
fn list_of(alloc: Global, step: &Step) -> Result<Text, OutOfMemory>
    requires { IsSoundStep step.now }
    ensures { IfOk result (IsStepText step.now) }
{
    let chosen = choose(alloc, step)?;
    step_text(
        alloc,
        step.seats,
        step.people.len(),
        chosen.admitted.as_slice(),
        chosen.cert.pairs.as_slice(),
    )
}

/// Returns the failure that reports a fault of a sheet.
fn sheet_failure(alloc: Global, fault: &SheetFault) -> Failure
    ensures { TellsLine (fault_output fault.now) result }
{
    match fault_text(alloc, fault) {
        Ok(line) => Failure::Bad(line),
        Err(OutOfMemory) => Failure::NoMemory,
    }
}

/// Returns the failure that reports too many bytes of a sheet.
fn too_long(alloc: Global) -> Failure
    ensures { (bytes : List ℕ) → most_sheet_bytes < length bytes
        → IsInputFailure step_answers bytes result }
{
    sheet_failure(
        alloc,
        &SheetFault {
            line: 0,
            kind: SheetKind::TooLong,
        },
    )
}
