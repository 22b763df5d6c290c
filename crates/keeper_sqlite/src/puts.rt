// Answers and raises that are put together.
ghost use Rattle.std.specs.Prelude.{[], ◌∷◌, OnOk};
ghost use Rattle.std.specs.List.{AllByRecursion};
ghost use Rattle.keeper_sqlite.specs.Inside.{Performs, StaysInside};
ghost use Rattle.keeper_sqlite.specs.Kept.{PutFits, put_call, put_calls};

use crate::halt::Halt;
use crate::{answer, lift};
use keeper_mem::Put;
use sqlite::{Alter, Transaction};

/// Puts rows after the others, in their order.
#[tactic(auto, using(crate::proofs::ActLemmas::acts_broken))]
pub(crate) fn insert_all<S: Alter>(tx: &mut Transaction<'_, S>, rows: &[Put]) -> Result<(), Halt>
    ensures inside { StaysInside S.Store tx.old.conn tx.new.conn }
    ensures acts { Performs S.Store (put_calls rows.now) tx.old.conn tx.new.conn result }
    ensures fit { OnOk result (AllByRecursion PutFits rows.now) }
{
    for row in rows {
        insert(tx, *row)?;
    }
    Ok(())
}

/// Puts a row after the others.
fn insert<S: Alter>(tx: &mut Transaction<'_, S>, row: Put) -> Result<(), Halt>
    ensures inside { StaysInside S.Store tx.old.conn tx.new.conn }
    ensures acts { Performs S.Store (put_call row ∷ []) tx.old.conn tx.new.conn result }
    ensures fits { PutFits row }
{
    match row {
        Put::Answer(row) => answer::insert(tx, row),
        Put::Raise(row) => lift::insert(tx, row),
    }
}
