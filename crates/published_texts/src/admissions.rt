// The text of the final admissions.
ghost use Rattle.std.specs.Prelude.{◌≡◌, ◌<◌, ◌++◌, OnOk, IfOk, length};
ghost use Rattle.std.specs.List.{AllByRecursion};
ghost use Rattle.published_texts.specs.Texts.{final_head, final_text};

use crate::seat::{LONGEST_ENDS, LONGEST_LINE, push_seat};
use kept_rows::AllotRow;
use office_base::{OutOfMemory, Text};
use seat_matrix::Matrix;
use std::alloc::Global;
use step_lines::push_count;

/// The text of these admissions, in their order: how many they are, and each of them. Each is in a programme of the matrix.
pub fn final_text(alloc: Global, matrix: &Matrix, rows: &[AllotRow]) -> Result<Text, OutOfMemory>
    requires { AllByRecursion (λ row. row.prog.0 < length matrix.now.programmes) rows.now }
    ensures { IfOk result (λ text. text ≡ final_text matrix.now rows.now) }
{
    let room = rows
        .len()
        .saturating_mul(LONGEST_LINE)
        .saturating_add(LONGEST_ENDS);
    let mut out = Text::with_capacity(alloc, room)?;
    push_head(&mut out, rows.len())?;
    for row in rows {
        out.extend_from_slice(b"admit ")?;
        push_seat(&mut out, matrix, row.cand, row.prog, row.step)?;
    }
    out.extend_from_slice(b"end final\n")?;
    Ok(out)
}

/// Puts the first line.
fn push_head(out: &mut Text, admitted: usize) -> Result<(), OutOfMemory>
    ensures { OnOk result (out.new ≡ out.old ++ final_head admitted) }
{
    out.extend_from_slice(b"final ")?;
    push_count(out, admitted)?;
    out.extend_from_slice(b"\n")
}
