// The lines of receipts, seats and the office's own state.
ghost use Rattle.std.specs.Prelude.{◌≡◌, ◌<◌, ◌++◌, OnOk, length};
ghost use Rattle.published_texts.specs.Texts.{IsSeatOf};
ghost use Rattle.step_lines.specs.Lines.{step_name};
ghost use Rattle.reply_texts.specs.Replies.{final_line, noted_line, published_line, raised_line, seat_words, standing_line, state_line};

use crate::refusals::{push_named, push_numbered};
use crate::words::{choice_name, standing_name};
use office_base::{CandId, Choice, OutOfMemory, ProgId, Seat, StepKind, Text};
use office_text::push_number;
use round_options::Standing;
use seat_matrix::Matrix;
use step_lines::{seat_kind_name, step_name};

/// Puts the line of an accepted answer.
pub(crate) fn push_noted(
    out: &mut Text,
    cand: CandId,
    window: u16,
    turn: u16,
    choice: Choice,
) -> Result<(), OutOfMemory>
    ensures { OnOk result (out.new ≡ out.old ++ noted_line cand.0 window turn choice) }
{
    push_numbered(out, b"noted ", cand.0)?;
    push_numbered(out, b" window ", u32::from(window))?;
    push_numbered(out, b" turn ", u32::from(turn))?;
    push_named(out, b" ", choice_name(choice))?;
    out.extend_from_slice(b"\n")
}

/// Puts the line of an accepted raise, whose programme is of the matrix.
pub(crate) fn push_raised(
    out: &mut Text,
    matrix: &Matrix,
    window: u16,
    prog: ProgId,
    step: StepKind,
    seats: u16,
) -> Result<(), OutOfMemory>
    requires { prog.0 < length matrix.now.programmes }
    ensures { OnOk result
        (out.new ≡ out.old ++ raised_line matrix.now window prog.0 (step_name step) seats) }
{
    let code = matrix.code(prog);
    out.extend_from_slice(b"raised ")?;
    out.extend_from_slice(code.bytes())?;
    push_named(out, b" ", step_name(step))?;
    push_numbered(out, b" window ", u32::from(window))?;
    push_numbered(out, b" seats ", u32::from(seats))?;
    out.extend_from_slice(b"\n")
}

/// Puts the first line of a cut that published a round.
pub(crate) fn push_published(out: &mut Text, number: u16, seated: u32) -> Result<(), OutOfMemory>
    ensures { OnOk result (out.new ≡ out.old ++ published_line number seated) }
{
    push_numbered(out, b"published ", u32::from(number))?;
    push_numbered(out, b" seated ", seated)?;
    out.extend_from_slice(b"\n")
}

/// Puts the first line of the last cut.
pub(crate) fn push_final(out: &mut Text, admitted: u32) -> Result<(), OutOfMemory>
    ensures { OnOk result (out.new ≡ out.old ++ final_line admitted) }
{
    push_numbered(out, b"final admitted ", admitted)?;
    out.extend_from_slice(b"\n")
}

/// Puts the line of a candidate's standing, and of the seat where there is one. Its programme is of the matrix.
pub(crate) fn push_standing(
    out: &mut Text,
    matrix: &Matrix,
    cand: CandId,
    number: u16,
    standing: Standing,
    seat: Option<Seat>,
) -> Result<(), OutOfMemory>
    requires { IsSeatOf matrix.now seat }
    ensures { OnOk result
        (out.new ≡ out.old ++ standing_line matrix.now cand.0 number standing seat) }
{
    push_numbered(out, b"seat ", cand.0)?;
    push_numbered(out, b" round ", u32::from(number))?;
    push_named(out, b" ", standing_name(standing))?;
    push_seat(out, matrix, seat)
}

/// Puts the seat, or that there is none.
fn push_seat(out: &mut Text, matrix: &Matrix, seat: Option<Seat>) -> Result<(), OutOfMemory>
    requires { IsSeatOf matrix.now seat }
    ensures { OnOk result (out.new ≡ out.old ++ seat_words matrix.now seat) }
{
    let Some(seat) = seat else {
        return out.extend_from_slice(b" none\n");
    };
    let code = matrix.code(seat.prog);
    out.extend_from_slice(b" ")?;
    out.extend_from_slice(code.bytes())?;
    push_named(out, b" ", seat_kind_name(seat.step))?;
    out.extend_from_slice(b"\n")
}

/// Puts the line of how far the office is.
pub(crate) fn push_state(
    out: &mut Text,
    window: u32,
    rounds: u32,
    published: u32,
) -> Result<(), OutOfMemory>
    ensures { OnOk result (out.new ≡ out.old ++ state_line window rounds published) }
{
    push_numbered(out, b"state window ", window)?;
    push_numbered(out, b" rounds ", rounds)?;
    push_numbered(out, b" published ", published)?;
    out.extend_from_slice(b"\n")
}
