// The table of answers.
ghost use Rattle.std.specs.Prelude.{◌≡◌, [], ◌∷◌, codes, IfOk, IfErr, OnOk, Bool, Some, List};
ghost use Rattle.keeper_sqlite.specs.Inside.{Acts, IsClean, Performs, StaysInside, content};
ghost use Rattle.keeper_sqlite.specs.Columns.{IsAnswerRow};
ghost use Rattle.keeper_sqlite.specs.Kept.{Ran, TellsRecords, answers_query, answer_table, answer_text, answer_values};
ghost use Rattle.stored_tables.specs.Fits.{AnswerFits};
ghost use Rattle.stored_tables.specs.Layout.{stored};
ghost use Rattle.stored_tables.specs.Puts.{PutsAnswer};
ghost use Rattle.stored_tables.specs.Rows.{answers_in};
ghost use Rattle.kept_rows.specs.declared.rows.AnswerRow.{AnswerRow};
ghost use Rattle.keeper_sqlite.specs.Stops.{StopsIn, LosesRecords};
ghost use Rattle.keeper_sqlite.specs.Kept.Call.{Runs, Asks};

use crate::calls::{Act, perform_one};
use crate::columns::{choice_at, expect_number, number_at, small_number_at};
use crate::halt::Halt;
use crate::numbers::number_of_choice;
use crate::records::StoredRow;
use kept_rows::{AnswerRow, AnswerRows};
use office_base::CandId;
use sqlite::{Alter, Row, Transaction, params};
use std::alloc::Global;

/// Puts a row after the others.
pub(crate) fn insert<S: Alter>(tx: &mut Transaction<'_, S>, row: AnswerRow) -> Result<(), Halt>
    ensures inside { StaysInside S.Store tx.old.conn tx.new.conn }
    ensures acts { Acts S.Store (λ _. Ran S.Store answer_text (answer_values row)) (StopsIn S.Store
        (Runs answer_text (answer_values row) ∷ [])) tx.old.conn tx.new.conn result }
    ensures fits { AnswerFits row }
    ensures put { (strict : Bool) → IsClean S.Store tx.new.conn.now
        → tx.old.conn.now.schema ≡ stored strict → OnOk result
        (PutsAnswer row (content S.Store tx.old.conn.now) (content S.Store tx.new.conn.now)) }
{
    perform_one(
        tx,
        Act::Run(
            "INSERT INTO answer (win, cand, turn, choice) VALUES (?1, ?2, ?3, ?4)",
            params![
                u32::from(row.window),
                row.cand.0,
                u32::from(row.turn),
                number_of_choice(row.choice)
            ],
        ),
    )
}

impl StoredRow for AnswerRow {
    ghost stands_in = { IsAnswerRow };

    fn from_row(row: &Row) -> Result<AnswerRow, Halt> {
        expect_number(row)?;
        Ok(AnswerRow {
            window: small_number_at(row, 1)?,
            cand: CandId(number_at(row, 2)?),
            turn: small_number_at(row, 3)?,
            choice: choice_at(row, 4)?,
        })
    }
}
