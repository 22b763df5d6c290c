// The text of a programme's list.
ghost use Rattle.std.specs.Prelude.{◌≡◌, ◌<◌, ◌++◌, OnOk, IfOk, length};
ghost use Rattle.std.specs.List.{AllByRecursion, flat_map};
ghost use Rattle.published_texts.specs.Texts.{list_head, list_step, list_text};

use crate::seat::push_code;
use office_base::{OutOfMemory, ProgId, Text};
use office_text::push_number;
use programme_lists::{Programme, StepList};
use seat_matrix::Matrix;
use std::alloc::Global;
use step_lines::{push_step_lines, step_name};

/// The text of the list of a programme in the round of this number: its steps in their order. The programme is one of the
/// matrix, and each slot is the number of a trait.
pub fn list_text(
    alloc: Global,
    matrix: &Matrix,
    number: u16,
    prog: ProgId,
    programme: &Programme,
) -> Result<Text, OutOfMemory>
    requires programme { prog.0 < length matrix.now.programmes }
    requires slots { AllByRecursion (λ list.
        AllByRecursion (λ pair. pair.slot < 6) list.cert.pairs) programme.now.steps }
    ensures { IfOk result (λ text. text ≡ list_text matrix.now number prog.0 programme.now) }
{
    let mut out = Text::new(alloc);
    push_head(&mut out, matrix, number, prog)?;
    push_lists(&mut out, &programme.steps)?;
    out.extend_from_slice(b"end list\n")?;
    Ok(out)
}

/// Puts the first line of a list.
fn push_head(out: &mut Text, matrix: &Matrix, number: u16, prog: ProgId) -> Result<(), OutOfMemory>
    requires { prog.0 < length matrix.now.programmes }
    ensures { OnOk result (out.new ≡ out.old ++ list_head matrix.now number prog.0) }
{
    out.extend_from_slice(b"list ")?;
    push_number(out, u32::from(number))?;
    out.extend_from_slice(b" ")?;
    push_code(out, matrix, prog)?;
    out.extend_from_slice(b"\n")
}

/// Puts the lines of steps, in their order.
fn push_lists(out: &mut Text, lists: &[StepList]) -> Result<(), OutOfMemory>
    requires { AllByRecursion (λ list.
        AllByRecursion (λ pair. pair.slot < 6) list.cert.pairs) lists.now }
    ensures { OnOk result (out.new ≡ out.old ++ flat_map list_step lists.now) }
{
    for list in lists {
        push_list(out, list)?;
    }
    Ok(())
}

/// Puts the lines of a step.
fn push_list(out: &mut Text, list: &StepList) -> Result<(), OutOfMemory>
    requires { AllByRecursion (λ pair. pair.slot < 6) list.now.cert.pairs }
    ensures { OnOk result (out.new ≡ out.old ++ list_step list.now) }
{
    out.extend_from_slice(b"step ")?;
    out.extend_from_slice(step_name(list.kind).as_bytes())?;
    push_step_lines(
        out,
        list.seats,
        list.candidates as usize,
        list.admitted.as_slice(),
        list.cert.pairs.as_slice(),
    )
}
