// The texts of the command on a sheet.
ghost use Rattle.std.specs.Prelude.{◌≡◌, ◌<◌, IfOk};
ghost use Rattle.std.specs.List.{AllByRecursion};
ghost use Rattle.step_command.specs.Output.{fault_output, step_output};

use crate::SheetFault;
use office_base::{OutOfMemory, Pair, Person, Text};
use office_text::push_number;
use std::alloc::Global;
use step_lines::push_step_lines;

/// What `step` writes for a sheet with this many seats and candidates, for those admitted and their pairs.
pub fn step_text(
    alloc: Global,
    seats: u16,
    candidates: usize,
    admitted: &[Person],
    pairs: &[Pair],
) -> Result<Text, OutOfMemory>
    requires { AllByRecursion (λ pair. pair.slot < 6) pairs.now }
    ensures { IfOk result (λ text. text ≡ step_output seats candidates admitted.now pairs.now) }
{
    let mut out = Text::new(alloc);
    out.extend_from_slice(b"step")?;
    push_step_lines(&mut out, u32::from(seats), candidates, admitted, pairs)?;
    out.extend_from_slice(b"end\n")?;
    Ok(out)
}

/// Returns the line that reports a fault.
pub fn fault_text(alloc: Global, fault: &SheetFault) -> Result<Text, OutOfMemory>
    ensures { IfOk result (λ text. text ≡ fault_output fault.now) }
{
    let mut out = Text::new(alloc);
    out.extend_from_slice(b"fault: sheet line ")?;
    push_number(&mut out, fault.line)?;
    out.extend_from_slice(b" ")?;
    out.extend_from_slice(fault.kind.name().as_bytes())?;
    out.extend_from_slice(b"\n")?;
    Ok(out)
}
