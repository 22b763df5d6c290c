// The text of a reason.
ghost use Rattle.std.specs.Prelude.{◌≡◌, ◌<◌, ◌++◌, OnOk, IfOk, length};
ghost use Rattle.published_texts.specs.Texts.{IsAnswerOf, better_line, reason_head, reason_lines, reason_text, why_line, worse_words};

use crate::seat::push_code;
use office_base::{CandId, OutOfMemory, ProgId, Text};
use office_text::push_number;
use reasons::{Reason, StepWhy, WhyAnswer};
use seat_matrix::Matrix;
use std::alloc::Global;
use step_lines::{seat_kind_name, step_name};

/// The text of the answer to why this candidate has no seat in the programme, or has one. The programmes that it names are of the
/// matrix.
pub fn reason_text(
    alloc: Global,
    matrix: &Matrix,
    cand: CandId,
    prog: ProgId,
    answer: &WhyAnswer,
) -> Result<Text, OutOfMemory>
    requires programme { prog.0 < length matrix.now.programmes }
    requires answer { IsAnswerOf matrix.now answer.now }
    ensures { IfOk result (λ text. text ≡ reason_text matrix.now cand.0 prog.0 answer.now) }
{
    let mut out = Text::new(alloc);
    push_head(&mut out, matrix, cand, prog)?;
    match answer {
        WhyAnswer::Reason(reason) => push_reason(&mut out, reason)?,
        WhyAnswer::Better(held) => push_better(&mut out, matrix, *held)?,
        WhyAnswer::NotSought => out.extend_from_slice(b" notsought\n")?,
    }
    Ok(out)
}

/// Puts the first words of a reason.
fn push_head(out: &mut Text, matrix: &Matrix, cand: CandId, prog: ProgId) -> Result<(), OutOfMemory>
    requires { prog.0 < length matrix.now.programmes }
    ensures { OnOk result (out.new ≡ out.old ++ reason_head matrix.now cand.0 prog.0) }
{
    out.extend_from_slice(b"why ")?;
    push_number(out, cand.0)?;
    out.extend_from_slice(b" ")?;
    push_code(out, matrix, prog)
}

/// Puts the code of the programme of a better seat.
fn push_better(out: &mut Text, matrix: &Matrix, held: ProgId) -> Result<(), OutOfMemory>
    requires { held.0 < length matrix.now.programmes }
    ensures { OnOk result (out.new ≡ out.old ++ better_line matrix.now held.0) }
{
    out.extend_from_slice(b" better ")?;
    push_code(out, matrix, held)?;
    out.extend_from_slice(b"\n")
}

/// Appends the step that admits, or that a seat is kept, or what counted against the person at each step.
fn push_reason(out: &mut Text, reason: &Reason) -> Result<(), OutOfMemory>
    ensures { OnOk result (out.new ≡ out.old ++ reason_lines reason.now) }
{
    match reason {
        Reason::Admitted(step) => {
            out.extend_from_slice(b" admitted ")?;
            out.extend_from_slice(seat_kind_name(*step).as_bytes())?;
            out.extend_from_slice(b"\n")
        }
        Reason::Refused {
            at_open,
            at_category,
            at_dereserved,
        } => {
            out.extend_from_slice(b" refused\n")?;
            push_why(out, at_open)?;
            push_why(out, at_category)?;
            push_why(out, at_dereserved)?;
            out.extend_from_slice(b"end why\n")
        }
    }
}

/// Appends what counted against the person at a step, if the person competed for its seats.
fn push_why(out: &mut Text, why: &Option<StepWhy>) -> Result<(), OutOfMemory>
    ensures { OnOk result (out.new ≡ out.old ++ why_line why.now) }
{
    let Some(why) = why else { return Ok(()) };
    out.extend_from_slice(step_name(why.kind).as_bytes())?;
    out.extend_from_slice(b" seats ")?;
    push_number(out, why.seats)?;
    push_worse(out, why.worse)
}

/// Puts whether somebody worse in merit was admitted.
fn push_worse(out: &mut Text, worse: bool) -> Result<(), OutOfMemory>
    ensures { OnOk result (out.new ≡ out.old ++ worse_words worse) }
{
    if worse {
        out.extend_from_slice(b" worse yes\n")
    } else {
        out.extend_from_slice(b" worse no\n")
    }
}
