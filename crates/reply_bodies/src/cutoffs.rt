// The object of the cutoffs of a programme in a round.
ghost use Rattle.std.specs.Prelude.{◌≡◌, ◌<◌, IfOk, length};
ghost use Rattle.serde_json.specs.View.{view};
ghost use Rattle.reply_bodies.specs.Bodies.{cutoffs_data};

use crate::texts::{code_value, codes_are_ascii, text_value};
use list_cutoffs::StepCutoff;
use office_base::{OutOfMemory, ProgId};
use reply_texts::cutoffs_text;
use seat_matrix::Matrix;
use serde_json::{Value, json};
use std::alloc::Global;

/// Returns the cutoffs of a programme, which is of the matrix, in a round.
pub(crate) fn cutoffs_value(
    alloc: Global,
    matrix: &Matrix,
    round: u16,
    prog: ProgId,
    lines: &[StepCutoff],
) -> Result<Value, OutOfMemory>
    requires { prog.0 < length matrix.now.programmes }
    ensures { IfOk result (λ value. view value ≡ cutoffs_data matrix.now round prog.0 lines.now) }
{
    codes_are_ascii(matrix, prog);
    let code = code_value(alloc, matrix, prog)?;
    let words = cutoffs_text(alloc, matrix, round, prog, lines)?;
    let text = text_value(alloc, words.as_slice())?;
    Ok(json!(in alloc; {"programme": &code, "reply": "cutoffs", "round": round, "text": &text})?)
}
