// The table of one row that says that a season is there, and how many cuts were made.
ghost use Rattle.std.specs.Prelude.{◌≡◌, ℕ, Option, [], ◌∷◌, IfOk, IfErr, OnOk, Bool, Some};
ghost use Rattle.keeper_sqlite.specs.Inside.{Acts, IsClean, Performs, StaysInside, content, phase_shown};
ghost use Rattle.keeper_sqlite.specs.Halts.{WantsMemory};
ghost use Rattle.keeper_sqlite.specs.Columns.{IsPhaseRow, TellsPhase};
ghost use Rattle.keeper_sqlite.specs.Kept.{TellsPhaseOf, phase_table, cuts_text, cuts_values, opening_text, opening_values};
ghost use Rattle.stored_tables.specs.Layout.{stored};
ghost use Rattle.stored_tables.specs.Puts.{OpensPhase, PutsCuts};
ghost use Rattle.keeper_sqlite.specs.Stops.{LosesPhase};
ghost use Rattle.keeper_sqlite.specs.Kept.Call.{Runs, Places};

use crate::calls::{Act, ask, perform_one};
use crate::columns::{number_at, small_number_at};
use crate::halt::Halt;
use sqlite::{Alter, Row, Transaction, params};

/// The one key.
const ID: u32 = 1;

/// Puts the row of a season without cuts, if the table has no row.
pub(crate) fn insert<S: Alter>(tx: &mut Transaction<'_, S>) -> Result<(), Halt>
    ensures inside { StaysInside S.Store tx.old.conn tx.new.conn }
    ensures acts { Performs S.Store (Places opening_text opening_values ∷ []) tx.old.conn
        tx.new.conn result }
    ensures put { (strict : Bool) → IsClean S.Store tx.new.conn.now
        → tx.old.conn.now.schema ≡ stored strict → OnOk result
        (OpensPhase (content S.Store tx.old.conn.now) (content S.Store tx.new.conn.now)) }
{
    perform_one(
        tx,
        Act::Place(
            "INSERT INTO phase (id, cuts) SELECT ?1, 0 WHERE NOT EXISTS (SELECT id FROM phase)",
            params![ID],
        ),
    )
}

/// Writes the number of cuts.
pub(crate) fn upsert<S: Alter>(tx: &mut Transaction<'_, S>, cuts: u16) -> Result<(), Halt>
    ensures inside { StaysInside S.Store tx.old.conn tx.new.conn }
    ensures acts { Performs S.Store (Runs cuts_text (cuts_values cuts) ∷ []) tx.old.conn tx.new.conn
        result }
    ensures put { (strict : Bool) → IsClean S.Store tx.new.conn.now → tx.old.conn.now.schema
        ≡ stored strict → (n : ℕ) → phase_shown S.Store tx.old.conn.now ≡ Some (Some n) → OnOk
        result (PutsCuts cuts (content S.Store tx.old.conn.now) (content S.Store tx.new.conn.now)) }
{
    perform_one(
        tx,
        Act::Run(
            "INSERT INTO phase (id, cuts) VALUES (?1, ?2) ON CONFLICT (id) DO UPDATE SET cuts = excluded.cuts",
            params![ID, u32::from(cuts)],
        ),
    )
}

/// Returns the number of cuts, or None if there is no season.
#[tactic(auto, using(crate::proofs::ActLemmas::acts_broken))]
pub(crate) fn read<S: Alter>(tx: &mut Transaction<'_, S>) -> Result<Option<u16>, Halt>
    ensures inside { StaysInside S.Store tx.old.conn tx.new.conn }
    ensures acts { Acts S.Store (TellsPhaseOf S.Store) (LosesPhase S.Store) tx.old.conn tx.new.conn
        result }
    ensures stands { (strict : Bool) → IsClean S.Store tx.new.conn.now
        → tx.old.conn.now.schema ≡ stored strict
        → IfOk result (λ found. phase_shown S.Store tx.old.conn.now ≡ Some found) }
{
    phase_of(&ask(tx, "SELECT id, cuts FROM phase ORDER BY id")?)
}

/// Returns the number of cuts in the rows of the table.
fn phase_of(rows: &[Row]) -> Result<Option<u16>, Halt>
    ensures ok { IfOk result (TellsPhase rows.now) }
    ensures err { IfErr result (λ halt. ¬ WantsMemory halt
        → (found : Option ℕ) → ¬ TellsPhase rows.now found) }
{
    match rows {
        [] => Ok(None),
        [row] => Ok(Some(cuts_of(row)?)),
        _ => Err(Halt::Unfit),
    }
}

fn cuts_of(row: &Row) -> Result<u16, Halt>
    ensures ok { IfOk result (IsPhaseRow row.now) }
    ensures err { IfErr result (λ halt. ¬ WantsMemory halt
        → (cuts : ℕ) → ¬ IsPhaseRow row.now cuts) }
{
    if number_at(row, 0)? != ID {
        return Err(Halt::Unfit);
    }
    small_number_at(row, 1)
}
