// What a keeper reads, in a transaction that is rolled back.
ghost use Rattle.std.specs.Prelude.{Bool, ◌≡◌, IsTrue, IfOk, IfErr, ◌⊎◌};
ghost use Rattle.sqlite.specs.Held.{Held, state};
ghost use Rattle.stored_tables.specs.Layout.{stored};
ghost use Rattle.keeper_sqlite.specs.Inside.{Acts, AreRecords, IsClean, StaysInside, content, shown};
ghost use Rattle.keeper_sqlite.specs.Stops.{LosesPhase, IsBusy, LosesTables, LosesKept};
ghost use Rattle.keeper_sqlite.specs.Commits.{CommitsNothing};
ghost use Rattle.keeper_sqlite.specs.declared.halt.Halt.{Halt};
ghost use Rattle.keeper_sqlite.specs.Kept.{Looks, TellsSeason, TellsKept, TellsTables};

use crate::halt::Halt;
use crate::records::read_all;
use crate::transactions::{at_rest, expect_free};
use crate::{phase, season};
use kept_rows::Kept;
use sqlite::{Alter, Connection, Transaction};
use std::alloc::Global;

/// Reads a `T` inside a transaction.
pub(crate) trait Look<S: Alter, T>: Copy {
    /// The calls showed what was read.
    ghost tells: { T → Held S → Held S → Type 0 };

    /// Nothing was read, for this cause.
    ghost loses: { Halt → Held S → Held S → Type 0 };

    fn read(self, tx: &mut Transaction<'_, S>) -> Result<T, Halt>
        ensures inside { StaysInside S.Store tx.old.conn tx.new.conn }
        ensures acts { Acts S.Store tells loses tx.old.conn tx.new.conn result };
}

/// Looks in one transaction, which is rolled back.
pub(crate) fn look_in<S: Alter, T, L: Look<S, T>>(
    connection: &mut Connection<S>,
    wanted: L,
) -> Result<T, Halt>
    ensures stays { IsClean S.Store connection.new → IsTrue (state S.Store connection.new).is_open
        → shown S.Store connection.new ≡ shown S.Store connection.old }
    ensures nothing { CommitsNothing (state S.Store connection.old) (state S.Store connection.new) }
    ensures found { IsClean S.Store connection.new → IfOk result (λ found.
        Looks S.Store (L.tells found) connection.old connection.new) }
    ensures lost { IsClean S.Store connection.new → IfErr result (λ halt. IsBusy halt connection.old
        ⊎ Looks S.Store (L.loses halt) connection.old connection.new) }
{
    expect_free(connection)?;
    at_rest(connection);
    let mut tx = connection.transaction();
    let found = wanted.read(&mut tx);
    tx.rollback();
    at_rest(connection);
    found
}

/// Reads whether a season is kept.
#[derive(Clone, Copy)]
pub(crate) struct AnySeason;

impl<S: Alter> Look<S, bool> for AnySeason {
    ghost tells = { TellsSeason S.Store };

    ghost loses = { LosesPhase S.Store };

    #[tactic(auto, using(crate::proofs::ActLemmas::acts_broken))]
    fn read(self, tx: &mut Transaction<'_, S>) -> Result<bool, Halt> {
        Ok(phase::read(tx)?.is_some())
    }
}

/// Reads all that is kept, or None if there is no season.
#[derive(Clone, Copy)]
pub(crate) struct Everything(pub Global);

impl<S: Alter> Look<S, Option<Kept>> for Everything {
    ghost tells = { TellsKept S.Store };

    ghost loses = { LosesKept S.Store };

    #[tactic(auto, using(crate::proofs::ActLemmas::acts_broken))]
    fn read(self, tx: &mut Transaction<'_, S>) -> Result<Option<Kept>, Halt> {
        match phase::read(tx)? {
            None => Ok(None),
            Some(cuts) => Ok(Some(read_kept(tx, self.0, cuts)?)),
        }
    }
}

#[tactic(auto, using(crate::proofs::ActLemmas::acts_broken))]
fn read_kept<S: Alter>(tx: &mut Transaction<'_, S>, alloc: Global, cuts: u16) -> Result<Kept, Halt>
    ensures inside { StaysInside S.Store tx.old.conn tx.new.conn }
    ensures cuts { IfOk result (λ kept. kept.cuts ≡ cuts) }
    ensures acts { Acts S.Store (TellsTables S.Store) (LosesTables S.Store) tx.old.conn tx.new.conn
        result }
    ensures stands { (strict : Bool) → IsClean S.Store tx.new.conn.now
        → tx.old.conn.now.schema ≡ stored strict
        → IfOk result (AreRecords (content S.Store tx.old.conn.now).trees) }
{
    Ok(Kept {
        season: season::read_text(tx, alloc)?,
        answers: read_all(
            tx,
            alloc,
            "SELECT seq, win, cand, turn, choice FROM answer ORDER BY seq",
        )?,
        raises: read_all(
            tx,
            alloc,
            "SELECT seq, win, prog, step, seats FROM lift ORDER BY seq",
        )?,
        allots: read_all(
            tx,
            alloc,
            "SELECT rnd, cand, prog, step FROM allot ORDER BY rnd, cand",
        )?,
        cuts,
    })
}
