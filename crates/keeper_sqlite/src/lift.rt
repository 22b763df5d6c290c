// The table of raises.
ghost use Rattle.std.specs.Prelude.{◌≡◌, [], ◌∷◌, codes, IfOk, IfErr, OnOk, Bool, Some, List};
ghost use Rattle.keeper_sqlite.specs.Inside.{Acts, IsClean, Performs, StaysInside, content};
ghost use Rattle.keeper_sqlite.specs.Columns.{IsRaiseRow};
ghost use Rattle.keeper_sqlite.specs.Kept.{Ran, TellsRecords, raises_query, lift_table, raise_text, raise_values};
ghost use Rattle.stored_tables.specs.Fits.{RaiseFits};
ghost use Rattle.stored_tables.specs.Layout.{stored};
ghost use Rattle.stored_tables.specs.Puts.{PutsRaise};
ghost use Rattle.stored_tables.specs.Rows.{raises_in};
ghost use Rattle.kept_rows.specs.declared.rows.RaiseRow.{RaiseRow};
ghost use Rattle.keeper_sqlite.specs.Stops.{StopsIn, LosesRecords};
ghost use Rattle.keeper_sqlite.specs.Kept.Call.{Runs, Asks};

use crate::calls::{Act, perform_one};
use crate::columns::{expect_number, small_number_at, step_at};
use crate::halt::Halt;
use crate::records::StoredRow;
use kept_rows::{RaiseRow, RaiseRows};
use office_base::{ProgId, step_number};
use sqlite::{Alter, Row, Transaction, params};
use std::alloc::Global;

/// Puts a row after the others.
pub(crate) fn insert<S: Alter>(tx: &mut Transaction<'_, S>, row: RaiseRow) -> Result<(), Halt>
    ensures inside { StaysInside S.Store tx.old.conn tx.new.conn }
    ensures acts { Acts S.Store (λ _. Ran S.Store raise_text (raise_values row)) (StopsIn S.Store
        (Runs raise_text (raise_values row) ∷ [])) tx.old.conn tx.new.conn result }
    ensures fits { RaiseFits row }
    ensures put { (strict : Bool) → IsClean S.Store tx.new.conn.now
        → tx.old.conn.now.schema ≡ stored strict → OnOk result
        (PutsRaise row (content S.Store tx.old.conn.now) (content S.Store tx.new.conn.now)) }
{
    perform_one(
        tx,
        Act::Run(
            "INSERT INTO lift (win, prog, step, seats) VALUES (?1, ?2, ?3, ?4)",
            params![
                u32::from(row.window),
                u32::from(row.prog.0),
                u32::from(step_number(row.step)),
                u32::from(row.seats)
            ],
        ),
    )
}

impl StoredRow for RaiseRow {
    ghost stands_in = { IsRaiseRow };

    fn from_row(row: &Row) -> Result<RaiseRow, Halt> {
        expect_number(row)?;
        Ok(RaiseRow {
            window: small_number_at(row, 1)?,
            prog: ProgId(small_number_at(row, 2)?),
            step: step_at(row, 3)?,
            seats: small_number_at(row, 4)?,
        })
    }
}
