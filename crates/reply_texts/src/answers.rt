// The receipts of a candidate's answers.
ghost use Rattle.std.specs.Prelude.{◌≡◌, ◌++◌, IfOk, OnOk};
ghost use Rattle.reply_texts.specs.Replies.{answers_head, answers_text};

use crate::receipts::push_noted;
use crate::refusals::push_numbered;
use kept_rows::AnswerRow;
use office_base::{CandId, OutOfMemory, Text};
use std::alloc::Global;
use step_lines::push_count;

/// Returns the receipts of the accepted answers of a candidate, after a line with how many there are.
pub(crate) fn answers_text(
    alloc: Global,
    cand: CandId,
    rows: &[AnswerRow],
) -> Result<Text, OutOfMemory>
    ensures { IfOk result (λ text. text ≡ answers_text cand.0 rows.now) }
{
    let mut out = Text::new(alloc);
    push_head(&mut out, cand, rows.len())?;
    for row in rows {
        push_noted(&mut out, row.cand, row.window, row.turn, row.choice)?;
    }
    out.extend_from_slice(b"end answers\n")?;
    Ok(out)
}

/// Puts the first line.
fn push_head(out: &mut Text, cand: CandId, noted: usize) -> Result<(), OutOfMemory>
    ensures { OnOk result (out.new ≡ out.old ++ answers_head cand.0 noted) }
{
    push_numbered(out, b"answers ", cand.0)?;
    out.extend_from_slice(b" noted ")?;
    push_count(out, noted)?;
    out.extend_from_slice(b"\n")
}
