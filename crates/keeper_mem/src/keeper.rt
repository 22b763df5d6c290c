// What the office asks of a keeper of records.
ghost use Rattle.std.specs.Prelude.{◌≡◌, true, false, IfOk, OnOk, IsErrOf, IsTrue, MatchOption};
ghost use Rattle.keeper_mem.specs.declared.keeper.KeepFault.TheVariants.{OutOfMemory as NoMemory};

use kept_rows::{AllotRow, AnswerRow, Kept, RaiseRow};
use office_base::OutOfMemory;
use std::alloc::Global;

/// Why a keeper did not do what it was asked.
#[derive(Clone, Copy, Debug, PartialEq, Eq, Drop)]
pub enum KeepFault {
    /// What the keeper depends on failed: its count of faults rose.
    Failed,
    /// Memory ran out.
    OutOfMemory,
}

impl From<OutOfMemory> for KeepFault {
    ghost from_gives = { λ _ fault. fault ≡ NoMemory };

    fn from(_: OutOfMemory) -> Self {
        KeepFault::OutOfMemory
    }
}

/// Keeps the records of one season. An `Err` leaves the tables unchanged,
/// and no fewer answers can be put without allocating.
///
/// A keeper may let the rows of answers and raises wait, and keep many of them at once when it is settled:
/// what waits is among its tables, and a crash may take it back.
pub trait Keeper {
    ghost use Rattle.keeper_mem.specs.Keeper.{KeeperView, IsLook, IsPut, TakesRoom};
    ghost use Rattle.kept_rows.specs.Tables.{with_season, with_answer, with_raise, with_cut, IsFound, IsLoaded};

    /// What a proof sees of it: its tables, if they are visible, and those of them that a crash does not take back,
    /// how often it has failed, and its room for answers.
    ghost seen: { Self → KeeperView };

    /// Returns whether a season is kept, by the tables as this call leaves them. The call may hide the tables.
    fn has_season(&mut self) -> Result<bool, KeepFault>
        ensures ok { IfOk result (λ found. IsFound found (seen self.new).tables) }
        ensures look { IsLook (seen self.old) (seen self.new) result };

    /// Keeps the text of a season. No season may be kept yet.
    fn put_season(&mut self, text: &[u8]) -> Result<(), KeepFault>
        requires { IsFound false (seen self.old).tables }
        ensures { IsPut (with_season text.now) 0 (seen self.old) (seen self.new) result };

    /// Takes room for this many answers, if the keeper holds room in advance.
    fn reserve_answers(&mut self, n: u32) -> Result<(), KeepFault>
        ensures { TakesRoom n (seen self.old) (seen self.new) result };

    /// Puts an answer after the others. It runs out of memory only if there is no room in advance.
    fn put_answer(&mut self, row: AnswerRow) -> Result<(), KeepFault>
        requires { IsFound true (seen self.old).tables }
        ensures put { IsPut (with_answer row) 1 (seen self.old) (seen self.new) result }
        ensures memory { IsErrOf result KeepFault.OutOfMemory → (seen self.old).spare ≡ 0 };

    /// Puts a raise after the others.
    fn put_raise(&mut self, row: RaiseRow) -> Result<(), KeepFault>
        requires { IsFound true (seen self.old).tables }
        ensures { IsPut (with_raise row) 0 (seen self.old) (seen self.new) result };

    /// Puts published seats after the others and adds one to the cuts: both or neither.
    fn put_cut(&mut self, rows: &[AllotRow]) -> Result<(), KeepFault>
        requires { IsFound true (seen self.old).tables }
        ensures { IsPut (with_cut rows.now) 0 (seen self.old) (seen self.new) result };

    /// Returns all that is kept, or None if no season is, by the tables as this call leaves them.
    fn load(&mut self, alloc: Global) -> Result<Option<Kept>, KeepFault>
        ensures ok { IfOk result (λ found. MatchOption found
            (IsFound false (seen self.new).tables) (IsLoaded (seen self.new).tables)) }
        ensures look { IsLook (seen self.old) (seen self.new) result };

    /// Returns whether no row waits to be kept. All tables are kept then.
    fn is_settled(&self) -> bool
        ensures is { result ≡ (seen self.now).settled }
        ensures all { IsTrue result → (seen self.now).kept ≡ (seen self.now).tables };

    /// Keeps the rows that wait, all at once, so that a crash does not take them back.
    /// After an `Err` they wait as before, and whether a crash takes them back is open.
    fn settle(&mut self) -> Result<(), KeepFault>
        ensures settled { OnOk result ((seen self.new).settled ≡ true) }
        ensures look { IsLook (seen self.old) (seen self.new) result };
}

/// A keeper with tables that are always visible, and with room in advance. Both keepers in memory are such keepers.
/// Without this trait, a keeper that keeps nothing and hides its tables meets every clause of `Keeper`.
pub trait Teller: Keeper {
    ghost use Rattle.kept_rows.specs.Tables.{IsTold};

    /// Shows that the tables are visible, and that room can be taken in advance. It does nothing.
    fn tells(&self)
        ensures told { IsTold (Self.seen self.now).tables }
        ensures room { (Self.seen self.now).holds_room ≡ true };
}
