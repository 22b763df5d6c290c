// The line that reports why kept records do not replay.
ghost use Rattle.std.specs.Prelude.{◌≡◌, ◌++◌, codes, IfOk, OnOk};
ghost use Rattle.std.specs.Fmt.{decimal};
ghost use Rattle.resume_command.specs.Stray.{code_or_mark, differs_line, seat_or_none};

use itoa::Buffer;
use office_base::{CandId, OutOfMemory, ProgId, Seat, Text};
use office_text::push_number;
use seat_matrix::Matrix;
use std::alloc::Global;
use step_lines::seat_kind_name;

/// Returns the line of a row of a table, counted from 1, that is not newly accepted at its place.
/// `words` name the table.
pub(crate) fn stray_text(alloc: Global, words: &[u8], row: u64) -> Result<Text, OutOfMemory>
    ensures { IfOk result (λ text. text ≡ words.now ++ decimal row ++ codes "\n") }
{
    let mut out = Text::new(alloc);
    let mut buffer = Buffer::new();
    out.extend_from_slice(words)?;
    out.extend_from_slice(buffer.format(row).as_bytes())?;
    out.extend_from_slice(b"\n")?;
    Ok(out)
}

/// Returns the line of a candidate whose kept seat in a round is not the computed one.
pub(crate) fn differs_text(
    alloc: Global,
    matrix: &Matrix,
    round: u16,
    cand: CandId,
    kept: Option<Seat>,
    computed: Option<Seat>,
) -> Result<Text, OutOfMemory>
    ensures { IfOk result (λ text. text ≡ differs_line matrix.now round cand.0 kept computed) }
{
    let mut out = Text::new(alloc);
    out.extend_from_slice(b"fault: differs round ")?;
    push_number(&mut out, u32::from(round))?;
    out.extend_from_slice(b" candidate ")?;
    push_number(&mut out, cand.0)?;
    out.extend_from_slice(b" kept ")?;
    push_seat(&mut out, matrix, kept)?;
    out.extend_from_slice(b" computed ")?;
    push_seat(&mut out, matrix, computed)?;
    out.extend_from_slice(b"\n")?;
    Ok(out)
}

/// Puts a seat, or that there is none.
fn push_seat(out: &mut Text, matrix: &Matrix, seat: Option<Seat>) -> Result<(), OutOfMemory>
    ensures { OnOk result (out.new ≡ out.old ++ seat_or_none matrix.now seat) }
{
    let Some(seat) = seat else {
        return out.extend_from_slice(b"none");
    };
    push_code(out, matrix, seat.prog)?;
    out.extend_from_slice(b" ")?;
    out.extend_from_slice(seat_kind_name(seat.step).as_bytes())
}

/// Puts the code of a programme, or `?` if the matrix has none of this number.
fn push_code(out: &mut Text, matrix: &Matrix, prog: ProgId) -> Result<(), OutOfMemory>
    ensures { OnOk result (out.new ≡ out.old ++ code_or_mark matrix.now prog.0) }
{
    if prog.0 < matrix.count() {
        let code = matrix.code(prog);
        out.extend_from_slice(code.bytes())
    } else {
        out.extend_from_slice(b"?")
    }
}
