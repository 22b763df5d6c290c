// The text of the cutoffs of a programme in a round.
ghost use Rattle.std.specs.Prelude.{◌≡◌, ◌<◌, ◌++◌, IfOk, OnOk, length};
ghost use Rattle.reply_texts.specs.Replies.{cutoff_line, cutoff_word, cutoffs_head, cutoffs_text};

use crate::refusals::push_numbered;
use crate::register::push_traits;
use list_cutoffs::{Cutoff, StepCutoff};
use office_base::{OutOfMemory, ProgId, Text};
use office_text::push_number;
use seat_matrix::Matrix;
use std::alloc::Global;
use step_lines::step_name;

/// Returns the text of the cutoffs of a programme in the round of this number. The programme is one of the matrix.
pub fn cutoffs_text(
    alloc: Global,
    matrix: &Matrix,
    round: u16,
    prog: ProgId,
    lines: &[StepCutoff],
) -> Result<Text, OutOfMemory>
    requires { prog.0 < length matrix.now.programmes }
    ensures { IfOk result (λ text. text ≡ cutoffs_text matrix.now round prog.0 lines.now) }
{
    let mut out = Text::new(alloc);
    push_head(&mut out, matrix, round, prog)?;
    for line in lines {
        push_line(&mut out, line)?;
    }
    out.extend_from_slice(b"end cutoffs\n")?;
    Ok(out)
}

/// Puts the first line.
fn push_head(out: &mut Text, matrix: &Matrix, round: u16, prog: ProgId) -> Result<(), OutOfMemory>
    requires { prog.0 < length matrix.now.programmes }
    ensures { OnOk result (out.new ≡ out.old ++ cutoffs_head matrix.now round prog.0) }
{
    let code = matrix.code(prog);
    push_numbered(out, b"cutoffs ", u32::from(round))?;
    out.extend_from_slice(b" ")?;
    out.extend_from_slice(code.bytes())?;
    out.extend_from_slice(b"\n")
}

/// Puts a line: the step, the traits and the last place.
fn push_line(out: &mut Text, line: &StepCutoff) -> Result<(), OutOfMemory>
    ensures { OnOk result (out.new ≡ out.old ++ cutoff_line line.now) }
{
    out.extend_from_slice(step_name(line.step).as_bytes())?;
    out.extend_from_slice(b" ")?;
    push_traits(out, line.traits)?;
    out.extend_from_slice(b" ")?;
    push_cutoff(out, line.cutoff)?;
    out.extend_from_slice(b"\n")
}

/// Puts the last place of a cutoff, or that every place is within it.
fn push_cutoff(out: &mut Text, cutoff: Cutoff) -> Result<(), OutOfMemory>
    ensures { OnOk result (out.new ≡ out.old ++ cutoff_word cutoff) }
{
    match cutoff {
        Cutoff::Nobody => out.extend_from_slice(b"none"),
        Cutoff::UpTo { last } => push_number(out, last),
        Cutoff::Anybody => out.extend_from_slice(b"any"),
    }
}
