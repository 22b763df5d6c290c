// The line of a candidate's choice list.
ghost use Rattle.std.specs.Prelude.{◌≡◌, ◌<◌, IfOk, length};
ghost use Rattle.std.specs.List.{AllByRecursion};
ghost use Rattle.reply_texts.specs.Replies.{choices_line};

use crate::refusals::push_numbered;
use office_base::{CandId, OutOfMemory, ProgId, Text};
use seat_matrix::Matrix;
use std::alloc::Global;

/// Returns the line of a candidate's choice list, whose programmes are of the matrix.
pub(crate) fn choices_text(
    alloc: Global,
    matrix: &Matrix,
    cand: CandId,
    progs: &[ProgId],
) -> Result<Text, OutOfMemory>
    requires { AllByRecursion (λ prog. prog.0 < length matrix.now.programmes) progs.now }
    ensures { IfOk result (λ text. text ≡ choices_line matrix.now cand.0 progs.now) }
{
    let mut out = Text::new(alloc);
    push_numbered(&mut out, b"choices ", cand.0)?;
    for prog in progs {
        let code = matrix.code(*prog);
        out.extend_from_slice(b" ")?;
        out.extend_from_slice(code.bytes())?;
    }
    out.extend_from_slice(b"\n")?;
    Ok(out)
}
