// The object of a candidate's answers.
ghost use Rattle.std.specs.Prelude.{◌≡◌, IfOk};
ghost use Rattle.serde_json.specs.View.{view};
ghost use Rattle.reply_bodies.specs.Bodies.{answer_data, answers_data};

use kept_rows::AnswerRow;
use office_base::{CandId, OutOfMemory};
use reply_texts::choice_name;
use serde_json::{Value, json};
use std::alloc::Global;

/// Returns the accepted answers of a candidate.
pub(crate) fn answers_value(
    alloc: Global,
    cand: CandId,
    rows: &[AnswerRow],
) -> Result<Value, OutOfMemory>
    ensures { IfOk result (λ value. view value ≡ answers_data cand.0 rows.now) }
{
    let mut answers = Vec::new(alloc);
    for row in rows {
        answers.push(answer_value(alloc, row)?)?;
    }
    let answers = Value::from(answers);
    let cand = cand.0;
    Ok(json!(in alloc; {"answers": &answers, "cand": cand, "reply": "answers"})?)
}

/// Returns an answer: the choice, its turn and its window.
fn answer_value(alloc: Global, row: &AnswerRow) -> Result<Value, OutOfMemory>
    ensures { IfOk result (λ value. view value ≡ answer_data row.now) }
{
    let choice = choice_name(row.choice);
    let turn = row.turn;
    let window = row.window;
    Ok(json!(in alloc; {"choice": choice, "turn": turn, "window": window})?)
}
