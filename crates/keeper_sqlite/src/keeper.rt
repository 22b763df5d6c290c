// The keeper over a connection.
ghost use Rattle.std.specs.Prelude.{◌≡◌, ◌≤◌, ◌⊎◌, [], ◌∷◌, ◌++◌, Bool, true, false, IsErrOf, IsErrAnd, IsTrue, IfOk, IfErr, OnOk, OnErr, MatchOption};
ghost use Rattle.office_base.specs.Memory.{FailsByOne, counted};
ghost use Rattle.sqlite.specs.State.{Survives};
ghost use Rattle.sqlite.specs.Tree.{Trees};
ghost use Rattle.sqlite.specs.Held.{state};
ghost use Rattle.keeper_sqlite.specs.Inside.{CrashLeaves, IsClean, content, shown, tables_without_raises};
ghost use Rattle.keeper_sqlite.specs.Commits.{CommitsNothing, CommitsOnce};
ghost use Rattle.keeper_sqlite.specs.Kept.{Keeps, MadeBy, Looks, TellsSeason, TellsKept, Makes, MakesCut, MakesRows, PutsText, Ran, DidAll, put_calls, season_calls, plain_calls, table_texts, answer_text, answer_values, raise_text, raise_values};
ghost use Rattle.keeper_sqlite.specs.Halts.{keep_fault};
ghost use Rattle.keeper_sqlite.specs.Transacts.{Transacts};
ghost use Rattle.keeper_sqlite.specs.Stops.{FailsBy, StopsIn, StopsText, LosesPhase, LosesCut, LosesKept, Breaks, IsBusy, Loses};
ghost use Rattle.keeper_sqlite.specs.Kept.Call.{Runs};
ghost use Rattle.std.specs.List.{AllByRecursion};
ghost use Rattle.keeper_mem.specs.Batch.{with_all};
ghost use Rattle.kept_rows.specs.Tables.{NoSeason, Records, with_season, with_answer, with_raise, with_cut, AreTold, IsFound, IsLoaded, IsTold};
ghost use Rattle.stored_tables.specs.Told.{tables_in};
ghost use Rattle.stored_tables.specs.Leaves.{LeavesTables};
ghost use Rattle.stored_tables.specs.Rising.{are_rising};
ghost use Rattle.kept_rows.specs.declared.rows.Kept.{Kept};
ghost use Rattle.stored_tables.specs.Layout.{no_schema, first_four, stored};

use crate::halt::Halt;
use crate::looks::{AnySeason, Everything, Look, look_in};
use crate::transactions::{self, Change};
use keeper_mem::{Batch, KeepFault, Keeper, Put};
use kept_rows::{AllotRow, AnswerRow, Kept, RaiseRow};
use sqlite::{Alter, Connection, Error, ErrorCode};
use std::alloc::Global;
use std::marker::Model;

/// A keeper over a database. Its tables are visible if those of its store are, and it holds no room in advance.
/// Each method is one transaction, so no row waits: what a call puts is kept when it returns. If one returns `Failed`, the database refused or failed, or somebody else is in a
/// transaction, or a row is no record or must not exist together with the new ones.
/// The count of faults then rose by one, up to 2^64 - 1.
#[derive(Drop)]
pub struct SqliteKeeper<S: Alter> {
    connection: Connection<S>,
    faults: u64,
}

impl<S: Alter> Model for SqliteKeeper<S> {
    ghost use Rattle.keeper_sqlite.specs.Stored.{Stored, stored_code};

    ghost Value = { Stored S };

    ghost coded = { stored_code S.code };

    ghost view = { λ k. record { connection = k.connection; faults = k.faults } };
}

impl<S: Alter> SqliteKeeper<S> {
    /// Makes a keeper over this connection, with no faults. It allocates nothing and touches no table.
    pub fn new(connection: Connection<S>) -> SqliteKeeper<S>
        ensures { result ≡ record { connection = connection; faults = 0 } }
    {
        SqliteKeeper {
            connection,
            faults: 0,
        }
    }

    /// Shows that the visible tables of the keeper are those of its store. It does nothing.
    pub fn tells(&self)
        ensures { (⟦<SqliteKeeper<S> as Keeper>⟧.seen self.now).tables
            ≡ shown S.Store self.now.connection }
    {
        let _ = self.connection.is_autocommit();
    }

    /// Returns how often it has failed, up to 2^64 - 1.
    pub fn faults(&self) -> u64
        ensures { result ≡ self.now.faults }
    {
        self.faults
    }

    /// Returns the connection, as the last call left it.
    pub fn into_connection(self) -> Connection<S>
        ensures { result ≡ self.connection }
    {
        let SqliteKeeper {
            connection,
            faults: _,
        } = self;
        connection
    }

    /// Makes the tables that are missing, all or none, and leaves the others.
    /// A database without the table of raises gets an empty one.
    /// If it ends well, the five texts were run in their order and committed, and existing tables keep their rows.
    /// A database without tables then shows no season.
    /// One without the table of raises shows what it kept and no raises.
    /// One with all five shows what it kept.
    pub fn make_tables(&mut self) -> Result<(), KeepFault>
        ensures blamed { FailsByOne (IsErrOf result KeepFault.Failed)
            self.old.faults self.new.faults }
        ensures once { CommitsOnce (state S.Store self.old.connection)
            (state S.Store self.new.connection) }
        ensures kept { IsClean S.Store self.new.connection → OnOk result (Keeps S.Store
            (DidAll S.Store (plain_calls table_texts)) self.old.connection self.new.connection) }
        ensures rows { IsClean S.Store self.new.connection → OnOk result (LeavesTables
            (content S.Store self.old.connection) (content S.Store self.new.connection)) }
        ensures fresh { IsClean S.Store self.new.connection → self.old.connection.schema ≡ no_schema
            → OnOk result (shown S.Store self.new.connection ≡ NoSeason) }
        ensures older { (strict : Bool) → IsClean S.Store self.new.connection
            → self.old.connection.schema ≡ first_four strict → OnOk result (shown S.Store
            self.new.connection ≡ tables_without_raises S.Store self.old.connection) }
        ensures whole { (strict : Bool) → IsClean S.Store self.new.connection
            → self.old.connection.schema ≡ stored strict → OnOk result (shown S.Store
            self.new.connection ≡ tables_in (content S.Store self.old.connection).trees) }
        ensures lost { IsClean S.Store self.new.connection → IfErr result
            (FailsBy (λ halt. Loses S.Store (StopsIn S.Store (plain_calls table_texts)) (DidAll
            S.Store (plain_calls table_texts)) halt self.old.connection self.new.connection)) }
    {
        self.commit(Change::Tables)
    }

    /// Makes a change in one transaction.
    fn commit(&mut self, change: Change<'_>) -> Result<(), KeepFault>
        ensures blamed { FailsByOne (IsErrOf result KeepFault.Failed)
            self.old.faults self.new.faults }
        ensures once { CommitsOnce (state S.Store self.old.connection)
            (state S.Store self.new.connection) }
        ensures stays_err { IsClean S.Store self.new.connection
            → IsTrue (state S.Store self.new.connection).is_open
            → OnErr result (shown S.Store self.new.connection ≡ shown S.Store self.old.connection) }
        ensures made { Survives (state S.Store self.old.connection)
            (state S.Store self.new.connection) (MadeBy S.Store change.entry self.old.connection) }
        ensures kept { IsClean S.Store self.new.connection → OnOk result
            (Keeps S.Store (Makes S.Store change.entry) self.old.connection self.new.connection) }
        ensures lost { IsClean S.Store self.new.connection
            → IfErr result (FailsBy (λ halt. Loses S.Store (Breaks S.Store change.entry)
            (Makes S.Store change.entry) halt self.old.connection self.new.connection)) }
    {
        let done = transactions::commit(&mut self.connection, change);
        self.report(done)
    }

    /// Looks in one transaction, which is rolled back.
    fn look<T, L: Look<S, T>>(&mut self, wanted: L) -> Result<T, KeepFault>
        ensures told { AreTold (shown S.Store self.old.connection)
            (shown S.Store self.new.connection) }
        ensures stays { IsClean S.Store self.new.connection
            → IsTrue (state S.Store self.new.connection).is_open
            → shown S.Store self.new.connection ≡ shown S.Store self.old.connection }
        ensures blamed { FailsByOne (IsErrOf result KeepFault.Failed)
            self.old.faults self.new.faults }
        ensures nothing { CommitsNothing (state S.Store self.old.connection)
            (state S.Store self.new.connection) }
        ensures found { IsClean S.Store self.new.connection → IfOk result (λ found.
            Looks S.Store (L.tells found) self.old.connection self.new.connection) }
        ensures lost { IsClean S.Store self.new.connection
            → IfErr result (FailsBy (λ halt. IsBusy halt self.old.connection
            ⊎ Looks S.Store (L.loses halt) self.old.connection self.new.connection)) }
    {
        let done = look_in(&mut self.connection, wanted);
        self.report(done)
    }

    /// Returns the result of a method. A lack of memory is reported as such, and everything else is counted.
    fn report<T>(&mut self, done: Result<T, Halt>) -> Result<T, KeepFault>
        ensures ok { IfOk result (λ value. done ≡ Ok value) }
        ensures err { IfErr result (λ fault. IsErrAnd done (λ halt. fault ≡ keep_fault halt)) }
        ensures count { self.old.faults ≤ self.new.faults }
        ensures steady { ¬ IsErrOf result KeepFault.Failed → self.new ≡ self.old }
        ensures counted { IsErrOf result KeepFault.Failed
            → self.new ≡ record self.old { faults = counted self.old.faults } }
    {
        match done {
            Ok(value) => Ok(value),
            Err(Halt::NoMemory | Halt::Refused(Error::SqliteFailure(ErrorCode::OutOfMemory))) =>
                Err(KeepFault::OutOfMemory),
            Err(Halt::Refused(_) | Halt::InTransaction | Halt::Unfit) => {
                self.faults = self.faults.saturating_add(1);
                Err(KeepFault::Failed)
            }
        }
    }
}

impl<S: Alter> Keeper for SqliteKeeper<S> {
    ghost use Rattle.std.specs.Prelude.{true, false};
    ghost use Rattle.stored_tables.specs.Told.{told};

    ghost seen = { λ k. record { tables = told (state S.Store k.connection); kept = told (state S.Store k.connection); settled = true; faults = k.faults; holds_room = false; spare = 0 } };

    fn has_season(&mut self) -> Result<bool, KeepFault>
        ensures ok { IfOk result (λ found. IsFound found (shown S.Store self.new.connection)) }
        ensures told { AreTold (shown S.Store self.old.connection)
            (shown S.Store self.new.connection) }
        ensures stays { IsClean S.Store self.new.connection
            → IsTrue (state S.Store self.new.connection).is_open
            → shown S.Store self.new.connection ≡ shown S.Store self.old.connection }
        ensures blamed { FailsByOne (IsErrOf result KeepFault.Failed)
            self.old.faults self.new.faults }
        ensures nothing { CommitsNothing (state S.Store self.old.connection)
            (state S.Store self.new.connection) }
        ensures found { IsClean S.Store self.new.connection → IfOk result (λ found.
            Looks S.Store (TellsSeason S.Store found) self.old.connection self.new.connection) }
        ensures lost { IsClean S.Store self.new.connection
            → IfErr result (FailsBy (λ halt. IsBusy halt self.old.connection
            ⊎ Looks S.Store (LosesPhase S.Store halt) self.old.connection self.new.connection)) }
    {
        self.look(AnySeason)
    }

    fn put_season(&mut self, text: &[u8]) -> Result<(), KeepFault>
        ensures ok { OnOk result (AreTold (with_season text.now (shown S.Store self.old.connection))
            (shown S.Store self.new.connection)) }
        ensures err { OnErr result
            (AreTold (shown S.Store self.old.connection) (shown S.Store self.new.connection)) }
        ensures stays { IsClean S.Store self.new.connection → OnOk result (shown S.Store
            self.new.connection ≡ with_season text.now (shown S.Store self.old.connection)) }
        ensures crash { IsTold (shown S.Store self.old.connection)
            → CrashLeaves S.Store (with_season text.now (shown S.Store self.old.connection))
            self.old.connection self.new.connection }
        ensures alone { IsClean S.Store self.new.connection → OnOk result (IsTold (shown S.Store
            self.new.connection) → (db : Trees) → (state S.Store self.new.connection).may_leave db
            → tables_in db ≡ shown S.Store self.new.connection) }
        ensures blamed { FailsByOne (IsErrOf result KeepFault.Failed)
            self.old.faults self.new.faults }
        ensures change { Transacts S.Store (PutsText S.Store season_calls text.now) (StopsText
            S.Store season_calls 0 text.now) self.old.connection self.new.connection result }
        ensures empty { (strict : Bool) → IsClean S.Store self.new.connection
            → self.old.connection.schema ≡ stored strict → OnOk result (AllByRecursion (λ t.
            (content S.Store self.old.connection).trees t ≡ []) (0 ∷ 1 ∷ 3 ∷ 5 ∷ 6 ∷ [])) }
    {
        self.commit(Change::Season(text))
    }

    fn reserve_answers(&mut self, _n: u32) -> Result<(), KeepFault> {
        Ok(())
    }

    fn put_answer(&mut self, row: AnswerRow) -> Result<(), KeepFault>
        ensures ok { IsFound true (shown S.Store self.old.connection)
            → OnOk result (AreTold (with_answer row (shown S.Store self.old.connection))
            (shown S.Store self.new.connection)) }
        ensures err { OnErr result
            (AreTold (shown S.Store self.old.connection) (shown S.Store self.new.connection)) }
        ensures stays { IsFound true (shown S.Store self.old.connection)
            → IsClean S.Store self.new.connection → OnOk result (shown S.Store self.new.connection
            ≡ with_answer row (shown S.Store self.old.connection)) }
        ensures crash { IsFound true (shown S.Store self.old.connection)
            → IsTold (shown S.Store self.old.connection) → CrashLeaves S.Store (with_answer row
            (shown S.Store self.old.connection)) self.old.connection self.new.connection }
        ensures alone { IsClean S.Store self.new.connection → OnOk result (IsTold (shown S.Store
            self.new.connection) → (db : Trees) → (state S.Store self.new.connection).may_leave db
            → tables_in db ≡ shown S.Store self.new.connection) }
        ensures blamed { FailsByOne (IsErrOf result KeepFault.Failed)
            self.old.faults self.new.faults }
        ensures change { Transacts S.Store (Ran S.Store answer_text (answer_values row))
            (StopsIn S.Store (Runs answer_text (answer_values row) ∷ []))
            self.old.connection self.new.connection result }
    {
        self.commit(Change::Answer(row))
    }

    fn put_raise(&mut self, row: RaiseRow) -> Result<(), KeepFault>
        ensures ok { IsFound true (shown S.Store self.old.connection)
            → OnOk result (AreTold (with_raise row (shown S.Store self.old.connection))
            (shown S.Store self.new.connection)) }
        ensures err { OnErr result
            (AreTold (shown S.Store self.old.connection) (shown S.Store self.new.connection)) }
        ensures stays { IsFound true (shown S.Store self.old.connection)
            → IsClean S.Store self.new.connection → OnOk result (shown S.Store self.new.connection
            ≡ with_raise row (shown S.Store self.old.connection)) }
        ensures crash { IsFound true (shown S.Store self.old.connection)
            → IsTold (shown S.Store self.old.connection) → CrashLeaves S.Store (with_raise row
            (shown S.Store self.old.connection)) self.old.connection self.new.connection }
        ensures alone { IsClean S.Store self.new.connection → OnOk result (IsTold (shown S.Store
            self.new.connection) → (db : Trees) → (state S.Store self.new.connection).may_leave db
            → tables_in db ≡ shown S.Store self.new.connection) }
        ensures blamed { FailsByOne (IsErrOf result KeepFault.Failed)
            self.old.faults self.new.faults }
        ensures change { Transacts S.Store (Ran S.Store raise_text (raise_values row))
            (StopsIn S.Store (Runs raise_text (raise_values row) ∷ []))
            self.old.connection self.new.connection result }
    {
        self.commit(Change::Raise(row))
    }

    fn put_cut(&mut self, rows: &[AllotRow]) -> Result<(), KeepFault>
        ensures ok { OnOk result (AreTold (with_cut rows.now (shown S.Store self.old.connection))
            (shown S.Store self.new.connection)) }
        ensures err { OnErr result
            (AreTold (shown S.Store self.old.connection) (shown S.Store self.new.connection)) }
        ensures stays { IsClean S.Store self.new.connection → OnOk result (shown S.Store
            self.new.connection ≡ with_cut rows.now (shown S.Store self.old.connection)) }
        ensures crash { IsTold (shown S.Store self.old.connection) → CrashLeaves S.Store (with_cut
            rows.now (shown S.Store self.old.connection)) self.old.connection self.new.connection }
        ensures alone { IsClean S.Store self.new.connection → OnOk result (IsTold (shown S.Store
            self.new.connection) → (db : Trees) → (state S.Store self.new.connection).may_leave db
            → tables_in db ≡ shown S.Store self.new.connection) }
        ensures blamed { FailsByOne (IsErrOf result KeepFault.Failed)
            self.old.faults self.new.faults }
        ensures change { Transacts S.Store (MakesCut S.Store rows.now)
            (LosesCut S.Store rows.now) self.old.connection self.new.connection result }
        ensures rises { (kept : Kept) → shown S.Store self.old.connection ≡ Records kept
            → IsClean S.Store self.new.connection
            → OnOk result (are_rising (kept.allots ++ rows.now) ≡ true) }
    {
        self.commit(Change::Cut(rows))
    }

    fn load(&mut self, alloc: Global) -> Result<Option<Kept>, KeepFault>
        ensures ok { IfOk result (λ found. MatchOption found (IsFound false
            (shown S.Store self.new.connection)) (IsLoaded (shown S.Store self.new.connection))) }
        ensures told { AreTold (shown S.Store self.old.connection)
            (shown S.Store self.new.connection) }
        ensures stays { IsClean S.Store self.new.connection
            → IsTrue (state S.Store self.new.connection).is_open
            → shown S.Store self.new.connection ≡ shown S.Store self.old.connection }
        ensures blamed { FailsByOne (IsErrOf result KeepFault.Failed)
            self.old.faults self.new.faults }
        ensures nothing { CommitsNothing (state S.Store self.old.connection)
            (state S.Store self.new.connection) }
        ensures loaded { IsClean S.Store self.new.connection → IfOk result (λ found.
            Looks S.Store (TellsKept S.Store found) self.old.connection self.new.connection) }
        ensures lost { IsClean S.Store self.new.connection
            → IfErr result (FailsBy (λ halt. IsBusy halt self.old.connection
            ⊎ Looks S.Store (LosesKept S.Store halt) self.old.connection self.new.connection)) }
    {
        self.look(Everything(alloc))
    }

    fn is_settled(&self) -> bool {
        true
    }

    fn settle(&mut self) -> Result<(), KeepFault> {
        Ok(())
    }
}

impl<S: Alter> Batch for SqliteKeeper<S> {
    fn put_all(&mut self, rows: &[Put]) -> Result<(), KeepFault>
        ensures ok { IsFound true (shown S.Store self.old.connection)
            → OnOk result (AreTold (with_all rows.now (shown S.Store self.old.connection))
            (shown S.Store self.new.connection)) }
        ensures err { OnErr result
            (AreTold (shown S.Store self.old.connection) (shown S.Store self.new.connection)) }
        ensures stays { IsFound true (shown S.Store self.old.connection)
            → IsClean S.Store self.new.connection → OnOk result (shown S.Store self.new.connection
            ≡ with_all rows.now (shown S.Store self.old.connection)) }
        ensures crash { IsFound true (shown S.Store self.old.connection)
            → IsTold (shown S.Store self.old.connection) → CrashLeaves S.Store (with_all rows.now
            (shown S.Store self.old.connection)) self.old.connection self.new.connection }
        ensures alone { IsClean S.Store self.new.connection → OnOk result (IsTold (shown S.Store
            self.new.connection) → (db : Trees) → (state S.Store self.new.connection).may_leave db
            → tables_in db ≡ shown S.Store self.new.connection) }
        ensures blamed { FailsByOne (IsErrOf result KeepFault.Failed)
            self.old.faults self.new.faults }
        ensures change { Transacts S.Store (MakesRows S.Store rows.now)
            (StopsIn S.Store (put_calls rows.now)) self.old.connection self.new.connection result }
    {
        self.commit(Change::Rows(rows))
    }

    fn keeps_at_once(&self) {}
}
