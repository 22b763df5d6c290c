// The table of published seats.
ghost use Rattle.std.specs.Prelude.{◌≡◌, Option, List, [], ◌∷◌, codes, IfOk, IfErr, OnOk, Bool, Some, None};
ghost use Rattle.sqlite.specs.Order.{Row as Values};
ghost use Rattle.keeper_sqlite.specs.Inside.{Acts, IsClean, Performs, StaysInside, content};
ghost use Rattle.keeper_sqlite.specs.Halts.{WantsMemory};
ghost use Rattle.keeper_sqlite.specs.Columns.{IsAllotRow, IsKeyRow, TellsKey};
ghost use Rattle.keeper_sqlite.specs.declared.rising.Key.{Key};
ghost use Rattle.std.specs.List.{AllByRecursion};
ghost use Rattle.stored_tables.specs.Fits.{AllotFits};
ghost use Rattle.keeper_sqlite.specs.Kept.{DidAll, TellsRecords, allots_query, allot_table, allot_text, allot_values, allot_calls, key_query};
ghost use Rattle.stored_tables.specs.Layout.{stored};
ghost use Rattle.stored_tables.specs.Puts.{PutsAllot};
ghost use Rattle.stored_tables.specs.Rows.{allots_in};
ghost use Rattle.kept_rows.specs.declared.rows.AllotRow.{AllotRow};
ghost use Rattle.keeper_sqlite.specs.Rising.{key_after};
ghost use Rattle.keeper_sqlite.specs.Stops.{LosesKey, LosesRecords};
ghost use Rattle.keeper_sqlite.specs.Kept.Call.{Runs, Asks, Readies};

use crate::calls::{ask, make_ready, run_ready};
use crate::columns::{number_at, seat_kind_at, small_number_at};
use crate::halt::Halt;
use crate::records::StoredRow;
use crate::rising::Key;
use kept_rows::{AllotRow, AllotRows};
use office_base::{CandId, ProgId, seat_kind_number};
use sqlite::{Alter, Row, Statement, Transaction, params};
use std::alloc::Global;

/// Puts rows, by one statement that is made ready once.
#[tactic(auto, using(crate::proofs::ActLemmas::acts_broken, crate::proofs::StopLemmas::stops_more))]
pub(crate) fn insert_all<S: Alter>(
    tx: &mut Transaction<'_, S>,
    rows: &[AllotRow],
) -> Result<(), Halt>
    ensures inside { StaysInside S.Store tx.old.conn tx.new.conn }
    ensures acts { Performs S.Store (Readies allot_text ∷ allot_calls allot_text rows.now)
        tx.old.conn tx.new.conn result }
    ensures fit { OnOk result (AllByRecursion AllotFits rows.now) }
{
    let insert = make_ready(
        tx,
        "INSERT INTO allot (rnd, cand, prog, step) VALUES (?1, ?2, ?3, ?4)",
    )?;
    insert_each(tx, &insert, rows)
}

fn insert_each<S: Alter>(
    tx: &mut Transaction<'_, S>,
    insert: &Statement,
    rows: &[AllotRow],
) -> Result<(), Halt>
    ensures inside { StaysInside S.Store tx.old.conn tx.new.conn }
    ensures acts { Performs S.Store (allot_calls insert.now.text rows.now) tx.old.conn tx.new.conn
        result }
    ensures fit { OnOk result (AllByRecursion AllotFits rows.now) }
{
    for row in rows {
        insert_one(tx, insert, *row)?;
    }
    Ok(())
}

fn insert_one<S: Alter>(
    tx: &mut Transaction<'_, S>,
    insert: &Statement,
    row: AllotRow,
) -> Result<(), Halt>
    ensures inside { StaysInside S.Store tx.old.conn tx.new.conn }
    ensures acts { Performs S.Store (Runs insert.now.text (allot_values row) ∷ []) tx.old.conn
        tx.new.conn result }
    ensures fits { AllotFits row }
    ensures put { (strict : Bool) → IsClean S.Store tx.new.conn.now
        → tx.old.conn.now.schema ≡ stored strict → insert.now.text ≡ allot_text → OnOk result
        (PutsAllot row (content S.Store tx.old.conn.now) (content S.Store tx.new.conn.now)) }
{
    run_ready(
        tx,
        insert,
        params![
            u32::from(row.round),
            row.cand.0,
            u32::from(row.prog.0),
            u32::from(seat_kind_number(row.step))
        ],
    )
}

/// Returns the last key by round and candidate, if the table has a row.
#[tactic(auto, using(crate::proofs::ActLemmas::acts_broken))]
pub(crate) fn last_key<S: Alter>(tx: &mut Transaction<'_, S>) -> Result<Option<Key>, Halt>
    ensures inside { StaysInside S.Store tx.old.conn tx.new.conn }
    ensures acts { Acts S.Store (λ last old new. (rows : List Values) × TellsKey rows last × DidAll
        S.Store (Asks key_query rows ∷ []) old new) (LosesKey S.Store) tx.old.conn tx.new.conn
        result }
    ensures stands { (strict : Bool) → IsClean S.Store tx.new.conn.now → tx.old.conn.now.schema
        ≡ stored strict → IfOk result (λ last. (all : List AllotRow) → allots_in
        (content S.Store tx.old.conn.now).trees ≡ Some all → last ≡ key_after None all) }
{
    first_key(&ask(
        tx,
        "SELECT rnd, cand FROM allot ORDER BY rnd DESC, cand DESC LIMIT 1",
    )?)
}

fn first_key(rows: &[Row]) -> Result<Option<Key>, Halt>
    ensures ok { IfOk result (TellsKey rows.now) }
    ensures err { IfErr result (λ halt. ¬ WantsMemory halt
        → (found : Option Key) → ¬ TellsKey rows.now found) }
{
    match rows.first() {
        None => Ok(None),
        Some(row) => Ok(Some(Key {
            round: small_number_at(row, 0)?,
            cand: CandId(number_at(row, 1)?),
        })),
    }
}

impl StoredRow for AllotRow {
    ghost stands_in = { IsAllotRow };

    fn from_row(row: &Row) -> Result<AllotRow, Halt> {
        Ok(AllotRow {
            round: small_number_at(row, 0)?,
            cand: CandId(number_at(row, 1)?),
            prog: ProgId(small_number_at(row, 2)?),
            step: seat_kind_at(row, 3)?,
        })
    }
}
