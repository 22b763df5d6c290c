// The object of what was published under a number.
ghost use Rattle.std.specs.Prelude.{◌≡◌, IfOk, option_copied};
ghost use Rattle.serde_json.specs.View.{view};
ghost use Rattle.reply_texts.specs.Replies.{AreShownOf};
ghost use Rattle.reply_bodies.specs.Bodies.{round_data};

use crate::texts::{all_codes_are_ascii, text_value};
use kept_rows::AllotRow;
use office_base::OutOfMemory;
use reply_texts::shown_text;
use rounds::Round;
use season_file::Season;
use serde_json::{Value, json};
use std::alloc::Global;

/// Returns what was published under a number: the round, or the final admissions if there is no round.
pub(crate) fn round_value(
    alloc: Global,
    season: &Season,
    round: Option<&Round>,
    rows: &[AllotRow],
    number: u16,
) -> Result<Value, OutOfMemory>
    requires { AreShownOf season.now.matrix season.now.register.people
        (option_copied round) rows.now }
    ensures { IfOk result (λ value. view value ≡ round_data season.now.matrix
        season.now.register.people (option_copied round.entry) rows.now number) }
{
    let matrix = &season.matrix;
    all_codes_are_ascii(matrix);
    let words = shown_text(alloc, matrix, season.register.people(), round, rows)?;
    let text = text_value(alloc, words.as_slice())?;
    Ok(json!(in alloc; {"reply": "round", "round": number, "text": &text})?)
}
