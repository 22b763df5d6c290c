// The five tables: each is made if it is missing, and a season is put only if none has a row.
ghost use Rattle.std.specs.Prelude.{◌≡◌, [], ◌∷◌, OnOk, Bool};
ghost use Rattle.std.specs.List.{AllByRecursion};
ghost use Rattle.keeper_sqlite.specs.Inside.{IsClean, Performs, StaysInside, content};
ghost use Rattle.keeper_sqlite.specs.Kept.{plain_calls, table_texts, unanswered_calls, any_row_queries};
ghost use Rattle.stored_tables.specs.Layout.{stored};

use crate::calls::{Act, perform};
use crate::halt::Halt;
use sqlite::{Alter, Transaction};

/// Makes the tables that are missing.
pub(crate) fn create<S: Alter>(tx: &mut Transaction<'_, S>) -> Result<(), Halt>
    ensures inside { StaysInside S.Store tx.old.conn tx.new.conn }
    ensures acts { Performs S.Store (plain_calls table_texts) tx.old.conn tx.new.conn result }
    ensures stands { (strict : Bool) → IsClean S.Store tx.new.conn.now
        → tx.old.conn.now.schema ≡ stored strict
        → OnOk result (content S.Store tx.new.conn.now ≡ content S.Store tx.old.conn.now) }
{
    perform(
        tx,
        &[
            Act::Run(
                "CREATE TABLE IF NOT EXISTS season (part INTEGER PRIMARY KEY, bytes BLOB NOT NULL) STRICT",
                &[],
            ),
            Act::Run(
                "CREATE TABLE IF NOT EXISTS answer (seq INTEGER PRIMARY KEY, win INTEGER NOT NULL, cand INTEGER NOT NULL, turn INTEGER NOT NULL, choice INTEGER NOT NULL, UNIQUE (win, cand, turn)) STRICT",
                &[],
            ),
            Act::Run(
                "CREATE TABLE IF NOT EXISTS allot (rnd INTEGER NOT NULL, cand INTEGER NOT NULL, prog INTEGER NOT NULL, step INTEGER NOT NULL, PRIMARY KEY (rnd, cand)) STRICT",
                &[],
            ),
            Act::Run(
                "CREATE TABLE IF NOT EXISTS phase (id INTEGER PRIMARY KEY, cuts INTEGER NOT NULL) STRICT",
                &[],
            ),
            Act::Run(
                "CREATE TABLE IF NOT EXISTS lift (seq INTEGER PRIMARY KEY, win INTEGER NOT NULL, prog INTEGER NOT NULL, step INTEGER NOT NULL, seats INTEGER NOT NULL) STRICT",
                &[],
            ),
        ],
    )
}

/// Tests that no table other than the phase has a row.
pub(crate) fn expect_empty<S: Alter>(tx: &mut Transaction<'_, S>) -> Result<(), Halt>
    ensures inside { StaysInside S.Store tx.old.conn tx.new.conn }
    ensures acts { Performs S.Store (unanswered_calls any_row_queries) tx.old.conn tx.new.conn
        result }
    ensures none { (strict : Bool) → IsClean S.Store tx.new.conn.now
        → tx.old.conn.now.schema ≡ stored strict → OnOk result (AllByRecursion (λ t.
        (content S.Store tx.old.conn.now).trees t ≡ []) (0 ∷ 1 ∷ 6 ∷ 3 ∷ [])) }
{
    perform(
        tx,
        &[
            Act::ExpectNone("SELECT part FROM season LIMIT 1"),
            Act::ExpectNone("SELECT seq FROM answer LIMIT 1"),
            Act::ExpectNone("SELECT seq FROM lift LIMIT 1"),
            Act::ExpectNone("SELECT rnd FROM allot LIMIT 1"),
        ],
    )
}
