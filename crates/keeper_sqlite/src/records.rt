// The records that the rows of a table hold.
ghost use Rattle.std.specs.Prelude.{List, IfOk, IfErr};
ghost use Rattle.std.specs.List.{AllZip};
ghost use Rattle.sqlite.specs.Order.{Row as Values};
ghost use Rattle.keeper_sqlite.specs.Halts.{WantsMemory};
ghost use Rattle.keeper_sqlite.specs.Inside.{Acts, StaysInside};
ghost use Rattle.keeper_sqlite.specs.Kept.{TellsRecords};
ghost use Rattle.keeper_sqlite.specs.Stops.{LosesRecords};

use crate::calls::ask;
use crate::halt::Halt;
use office_base::Listed;
use sqlite::{Alter, Row, Transaction};
use std::alloc::Global;

/// A record that one row holds.
pub(crate) trait StoredRow: Drop + Sized {
    /// The row holds this record.
    ghost stands_in: { Values → Self → Type 0 };

    /// Reads the record of the row.
    fn from_row(row: &Row) -> Result<Self, Halt>
        ensures ok { IfOk result (stands_in row.now) }
        ensures err { IfErr result (λ halt. ¬ WantsMemory halt
            → (held : Self) → ¬ stands_in row.now held) };
}

/// Returns the records of the rows that a query shows, in their order.
#[tactic(auto, using(crate::proofs::ActLemmas::acts_broken))]
pub(crate) fn read_all<S: Alter, R: StoredRow>(
    tx: &mut Transaction<'_, S>,
    alloc: Global,
    query: &str,
) -> Result<Listed<R>, Halt>
    ensures inside { StaysInside S.Store tx.old.conn tx.new.conn }
    ensures acts { Acts S.Store (TellsRecords S.Store R.StoredRow.stands_in query.now) (LosesRecords
        S.Store R.StoredRow.stands_in query.now) tx.old.conn tx.new.conn result }
{
    let rows = ask(tx, query)?;
    records_of(alloc, &rows)
}

/// Reads the records of the rows, in their order.
fn records_of<R: StoredRow>(alloc: Global, rows: &[Row]) -> Result<Listed<R>, Halt>
    ensures ok { IfOk result (AllZip R.StoredRow.stands_in rows.now) }
    ensures err { IfErr result (λ halt. ¬ WantsMemory halt → (held : List R)
        → ¬ AllZip R.StoredRow.stands_in rows.now held) }
{
    let mut records = Listed::with_capacity(alloc, rows.len())?;
    for row in rows {
        records.push(R::from_row(row)?)?;
    }
    Ok(records)
}
