// The line that reports what is wrong with a bundle with units.
ghost use Rattle.std.specs.Prelude.{◌≡◌, IfOk};
ghost use Rattle.units_command.specs.Texts.{numbered_line, unit_line};
ghost use Rattle.units_command.specs.Units.{TellsUnitFault};

use command_answers::Failure;
use office_base::{OutOfMemory, Text};
use office_text::push_number;
use quota_units::UnitFault;
use std::alloc::Global;

/// Returns the failure that reports why there is no plain bundle.
pub(crate) fn unit_failure(alloc: Global, fault: UnitFault) -> Failure
    ensures { TellsUnitFault fault result }
{
    match fault {
        UnitFault::ReadFault => Failure::Read,
        UnitFault::OutOfMemory => Failure::NoMemory,
        _ => match unit_text(alloc, fault) {
            Ok(line) => Failure::Bad(line),
            Err(OutOfMemory) => Failure::NoMemory,
        },
    }
}

/// Returns the line that reports the fault of a bundle with units.
/// A source that failed and memory that ran out have their lines too.
fn unit_text(alloc: Global, fault: UnitFault) -> Result<Text, OutOfMemory>
    ensures { IfOk result (λ text. text ≡ unit_line fault) }
{
    match fault {
        UnitFault::ReadFault => whole_line(alloc, b"fault: read\n"),
        UnitFault::TooLong => whole_line(alloc, b"fault: units TooLong\n"),
        UnitFault::BadFirstLine => whole_line(alloc, b"fault: units BadFirstLine\n"),
        UnitFault::Section { line } => numbered_line(alloc, "units line", line, "Section"),
        UnitFault::BadUnit { row } => numbered_line(alloc, "units row", row, "BadUnit"),
        UnitFault::BadState { row } => numbered_line(alloc, "states row", row, "BadState"),
        UnitFault::DirectUnit { row } => numbered_line(alloc, "choices row", row, "DirectUnit"),
        UnitFault::NoState { row } => numbered_line(alloc, "choices row", row, "NoState"),
        UnitFault::OutOfMemory => whole_line(alloc, b"fault: memory\n"),
    }
}

/// Returns a line with these bytes.
fn whole_line(alloc: Global, line: &[u8]) -> Result<Text, OutOfMemory>
    ensures { IfOk result (λ text. text ≡ line.now) }
{
    let mut out = Text::new(alloc);
    out.extend_from_slice(line)?;
    Ok(out)
}

/// Returns the line of a fault at a line or a row, counted from 1.
fn numbered_line(alloc: Global, begin: &str, number: u32, kind: &str) -> Result<Text, OutOfMemory>
    ensures { IfOk result (λ text. text ≡ numbered_line begin.now number kind.now) }
{
    let mut out = Text::new(alloc);
    out.extend_from_slice(b"fault: ")?;
    out.extend_from_slice(begin.as_bytes())?;
    out.extend_from_slice(b" ")?;
    push_number(&mut out, number)?;
    out.extend_from_slice(b" ")?;
    out.extend_from_slice(kind.as_bytes())?;
    out.extend_from_slice(b"\n")?;
    Ok(out)
}
