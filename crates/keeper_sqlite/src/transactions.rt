// The transactions that change the tables: all that a change is, or nothing.
ghost use Rattle.std.specs.Prelude.{◌≡◌, false, Ok, Err, IsTrue, IfErr, OnOk, OnErr};
ghost use Rattle.sqlite.specs.State.{IsLive, Survives};
ghost use Rattle.sqlite.specs.Held.{state};
ghost use Rattle.keeper_sqlite.specs.Inside.{Acts, FailsToSettle, IsClean, StaysInside, content, shown};
ghost use Rattle.keeper_sqlite.specs.Stops.{StopsIn, StopsText, LosesCut, Breaks, IsBusy, Loses};
ghost use Rattle.keeper_sqlite.specs.Commits.{CommitsNothing, CommitsOnce};
ghost use Rattle.keeper_sqlite.specs.Kept.{Keeps, MadeBy, Makes, MakesCut, MakesRows, PutsText, put_calls, season_calls};

use crate::halt::Halt;
use crate::rising::are_rising;
use crate::{allot, answer, lift, phase, puts, season, tables};
use keeper_mem::Put;
use kept_rows::{AllotRow, AnswerRow, RaiseRow};
use sqlite::{Alter, Connection, Transaction};

/// What one transaction writes.
#[derive(Clone, Copy)]
pub(crate) enum Change<'a> {
    /// The tables that are missing.
    Tables,
    /// The text of a season, if no table has a row.
    Season(&'a [u8]),
    /// An answer after the others.
    Answer(AnswerRow),
    /// A raise after the others.
    Raise(RaiseRow),
    /// Answers and raises after the others, in their order.
    Rows(&'a [Put]),
    /// Published seats, which rise by round and candidate above those that are kept, and one more cut.
    Cut(&'a [AllotRow]),
}

/// Tests that nobody else is in a transaction.
pub(crate) fn expect_free<S: Alter>(connection: &Connection<S>) -> Result<(), Halt>
    ensures ok { OnOk result (connection.now.in_transaction ≡ false) }
    ensures err { IfErr result (λ halt. IsBusy halt connection.now) }
{
    if connection.is_autocommit() {
        Ok(())
    } else {
        Err(Halt::InTransaction)
    }
}

/// Shows that outside a transaction an open connection shows its last commit, and that the commit obeys its schema.
/// It does nothing.
pub(crate) fn at_rest<S: Alter>(connection: &Connection<S>)
    ensures live { IsLive (state S.Store connection.now) }
    ensures settled { connection.now.in_transaction ≡ false
        → IsTrue (state S.Store connection.now).is_open
        → (content S.Store connection.now) ≡ (state S.Store connection.now).committed }
{
    let _schema = connection.schema();
    let _free = connection.is_autocommit();
}

/// Commits what was done, or rolls it back.
fn settle<S: Alter>(tx: Transaction<'_, S>, done: Result<(), Halt>) -> Result<(), Halt>
    ensures shown { Survives (state S.Store tx.entry.conn.now) (state S.Store tx.exit.0.now)
        (λ db. (done ≡ Ok tt) × (db ≡ (content S.Store tx.entry.conn.now).trees)) }
    ensures nothing { OnErr done
        (CommitsNothing (state S.Store tx.entry.conn.now) (state S.Store tx.exit.0.now)) }
    ensures ended { (tx.exit.0.now.in_transaction ≡ false) × OnOk result (done ≡ Ok tt) }
    ensures back { IsClean S.Store tx.exit.0.now → IsTrue (state S.Store tx.exit.0.now).is_open
        → OnErr result (IsTrue (state S.Store tx.entry.conn.now).is_open
        × ((state S.Store tx.exit.0.now).committed ≡ (state S.Store tx.entry.conn.now).committed)) }
    ensures shows { IsClean S.Store tx.exit.0.now → OnOk result (IsTrue
        (state S.Store tx.entry.conn.now).is_open × IsTrue (state S.Store tx.exit.0.now).is_open) }
    ensures now { IsClean S.Store tx.exit.0.now
        → OnOk result (content S.Store tx.exit.0.now ≡ content S.Store tx.entry.conn.now) }
    ensures committed { IsClean S.Store tx.exit.0.now → OnOk result
        ((state S.Store tx.exit.0.now).committed ≡ (content S.Store tx.entry.conn.now)) }
    ensures why { IsClean S.Store tx.exit.0.now
        → IfErr result (FailsToSettle S.Store done tx.entry.conn.now tx.exit.0.now) }
{
    done?;
    tx.commit()?;
    Ok(())
}

/// Makes a change in one transaction.
pub(crate) fn commit<S: Alter>(
    connection: &mut Connection<S>,
    change: Change<'_>,
) -> Result<(), Halt>
    ensures once { CommitsOnce (state S.Store connection.old) (state S.Store connection.new) }
    ensures stays_err { IsClean S.Store connection.new
        → IsTrue (state S.Store connection.new).is_open
        → OnErr result (shown S.Store connection.new ≡ shown S.Store connection.old) }
    ensures made { Survives (state S.Store connection.old) (state S.Store connection.new)
        (MadeBy S.Store change.entry connection.old) }
    ensures kept { IsClean S.Store connection.new
        → OnOk result (Keeps S.Store (Makes S.Store change.entry) connection.old connection.new) }
    ensures lost { IsClean S.Store connection.new → IfErr result (λ halt. Loses S.Store (Breaks
        S.Store change.entry) (Makes S.Store change.entry) halt connection.old connection.new) }
{
    expect_free(connection)?;
    at_rest(connection);
    let mut begun = connection.transaction();
    let done = write(&mut begun, change);
    let ended = settle(begun, done);
    at_rest(connection);
    ended
}

fn write<S: Alter>(tx: &mut Transaction<'_, S>, change: Change<'_>) -> Result<(), Halt>
    ensures inside { StaysInside S.Store tx.old.conn tx.new.conn }
    ensures acts { Acts S.Store (λ _. Makes S.Store change.entry) (Breaks S.Store change.entry)
        tx.old.conn tx.new.conn result }
{
    match change {
        Change::Tables => tables::create(tx),
        Change::Season(text) => write_season(tx, text),
        Change::Answer(row) => answer::insert(tx, row),
        Change::Raise(row) => lift::insert(tx, row),
        Change::Rows(rows) => write_rows(tx, rows),
        Change::Cut(rows) => write_cut(tx, rows),
    }
}

#[tactic(auto, using(crate::proofs::ActLemmas::acts_broken, crate::proofs::StopLemmas::season_stops))]
fn write_season<S: Alter>(tx: &mut Transaction<'_, S>, text: &[u8]) -> Result<(), Halt>
    ensures inside { StaysInside S.Store tx.old.conn tx.new.conn }
    ensures acts { Acts S.Store (λ _. PutsText S.Store season_calls text.now) (StopsText S.Store
        season_calls 0 text.now) tx.old.conn tx.new.conn result }
{
    tables::expect_empty(tx)?;
    season::insert_text(tx, text)?;
    phase::insert(tx)
}

/// Puts answers and raises.
fn write_rows<S: Alter>(tx: &mut Transaction<'_, S>, rows: &[Put]) -> Result<(), Halt>
    ensures inside { StaysInside S.Store tx.old.conn tx.new.conn }
    ensures acts { Acts S.Store (λ _. MakesRows S.Store rows.now)
        (StopsIn S.Store (put_calls rows.now)) tx.old.conn tx.new.conn result }
{
    puts::insert_all(tx, rows)
}

/// Puts published seats, and one cut more than were made. A season must be kept, and the rows must rise above the last
/// that is kept.
#[tactic(auto, using(crate::proofs::ActLemmas::acts_broken))]
fn write_cut<S: Alter>(tx: &mut Transaction<'_, S>, rows: &[AllotRow]) -> Result<(), Halt>
    ensures inside { StaysInside S.Store tx.old.conn tx.new.conn }
    ensures acts { Acts S.Store (λ _. MakesCut S.Store rows.now) (LosesCut S.Store rows.now)
        tx.old.conn tx.new.conn result }
{
    let made = phase::read(tx)?.ok_or(Halt::Unfit)?;
    if !are_rising(allot::last_key(tx)?, rows) {
        return Err(Halt::Unfit);
    }
    let cuts = made.checked_add(1).ok_or(Halt::Unfit)?;
    allot::insert_all(tx, rows)?;
    phase::upsert(tx, cuts)
}
