// What several texts have: the code of a programme, and the line of a seat.
ghost use Rattle.std.specs.Prelude.{◌≡◌, ◌<◌, ◌++◌, OnOk, length};
ghost use Rattle.published_texts.specs.Texts.{code_in, seat_line};

use office_base::{CandId, OutOfMemory, ProgId, SeatKind, Text};
use office_text::push_number;
use seat_matrix::Matrix;
use step_lines::seat_kind_name;

/// The most bytes of a line of a seat, with its first word.
pub(crate) const LONGEST_LINE: usize = 39;

/// The most bytes of the first line and the last.
pub(crate) const LONGEST_ENDS: usize = 64;

/// Puts the code of a programme.
pub(crate) fn push_code(out: &mut Text, matrix: &Matrix, prog: ProgId) -> Result<(), OutOfMemory>
    requires { prog.0 < length matrix.now.programmes }
    ensures { OnOk result (out.new ≡ out.old ++ code_in matrix.now prog.0) }
{
    let code = matrix.code(prog);
    out.extend_from_slice(code.bytes())
}

/// Puts the rest of the line of a seat, after its first word.
pub(crate) fn push_seat(
    out: &mut Text,
    matrix: &Matrix,
    cand: CandId,
    prog: ProgId,
    step: SeatKind,
) -> Result<(), OutOfMemory>
    requires { prog.0 < length matrix.now.programmes }
    ensures { OnOk result (out.new ≡ out.old ++ seat_line matrix.now cand.0 prog.0 step) }
{
    push_number(out, cand.0)?;
    out.push(b' ')?;
    push_code(out, matrix, prog)?;
    out.push(b' ')?;
    out.extend_from_slice(seat_kind_name(step).as_bytes())?;
    out.push(b'\n')
}
