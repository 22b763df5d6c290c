// The keeper whose rows wait.
ghost use Rattle.std.specs.Prelude.{◌≡◌, ◌≤◌, ◌-◌, ◌++◌, [], ◌∷◌, true, false, OnOk, OnErr, IfOk, IsErrOf, MatchOption, length};
ghost use Rattle.kept_rows.specs.Tables.{IsFound, IsLoaded, with_season, with_answer, with_raise, with_cut};
ghost use Rattle.keeper_mem.specs.Keeper.{IsLook, IsPut};
ghost use Rattle.pending_keeper.specs.Pending.{pending_seen};

use keeper_mem::{Batch, KeepFault, Keeper, Put};
use kept_rows::{AllotRow, AnswerRow, Kept, RaiseRow};
use std::alloc::Global;
use std::marker::Model;

/// Lets answers and raises wait, in memory, until it is settled. Then it puts all of them in one call of the keeper below.
/// Every other call settles first. It holds no room in advance, since it pushes each row when it comes.
#[derive(Drop)]
pub struct Pending<K: Batch> {
    keeper: K,
    rows: Vec<Put>,
}

impl<K: Batch> Model for Pending<K> {
    ghost use Rattle.std.specs.Prelude.{◌≡◌, false};
    ghost use Rattle.kept_rows.specs.Tables.{IsFound};
    ghost use Rattle.pending_keeper.specs.Pending.{PendingView, HasSeasonForAll};

    ghost Value = { PendingView K };

    ghost view = { λ a. record { keeper = a.keeper; rows = a.rows.items } };

    ghost invariant = { λ a. HasSeasonForAll K.seen (record { keeper = a.keeper; rows = a.rows.items }) };
}

impl<K: Batch> Pending<K> {
    /// Makes a keeper over this one, with no row that waits. It allocates nothing.
    pub fn new(alloc: Global, keeper: K) -> Pending<K>
        ensures { result ≡ record { keeper = keeper; rows = [] } }
    {
        Pending {
            keeper,
            rows: Vec::new(alloc),
        }
    }

    /// Returns the keeper below. What waits is lost, so settle first.
    pub fn into_keeper(self) -> K
        ensures { result ≡ self.keeper }
    {
        let Pending { keeper, rows: _ } = self;
        keeper
    }

    /// Lets a row wait after the others. If memory runs out, it does not wait, and the others still do.
    fn wait(&mut self, row: Put) -> Result<(), KeepFault>
        requires { IsFound true (pending_seen K.seen self.old).tables }
        ensures keeper { self.new.keeper ≡ self.old.keeper }
        ensures ok { OnOk result (self.new.rows ≡ self.old.rows ++ row ∷ []) }
        ensures err { OnErr result (self.new.rows ≡ self.old.rows) }
        ensures fault { IsErrOf result KeepFault.Failed → ⊥ }
    {
        if self.rows.push(row).is_err() {
            return Err(KeepFault::OutOfMemory);
        }
        Ok(())
    }
}

impl<K: Batch> Keeper for Pending<K> {
    ghost use Rattle.pending_keeper.specs.Pending.{pending_seen};

    ghost seen = { λ pending. pending_seen K.seen pending };

    fn has_season(&mut self) -> Result<bool, KeepFault> {
        self.settle()?;
        self.keeper.has_season()
    }

    fn put_season(&mut self, text: &[u8]) -> Result<(), KeepFault> {
        self.settle()?;
        self.keeper.put_season(text)
    }

    fn reserve_answers(&mut self, _n: u32) -> Result<(), KeepFault> {
        Ok(())
    }

    fn put_answer(&mut self, row: AnswerRow) -> Result<(), KeepFault> {
        self.wait(Put::Answer(row))
    }

    fn put_raise(&mut self, row: RaiseRow) -> Result<(), KeepFault> {
        self.wait(Put::Raise(row))
    }

    fn put_cut(&mut self, rows: &[AllotRow]) -> Result<(), KeepFault> {
        self.settle()?;
        self.keeper.put_cut(rows)
    }

    fn load(&mut self, alloc: Global) -> Result<Option<Kept>, KeepFault> {
        self.settle()?;
        self.keeper.load(alloc)
    }

    fn is_settled(&self) -> bool {
        self.keeper.keeps_at_once();
        self.rows.is_empty()
    }

    fn settle(&mut self) -> Result<(), KeepFault> {
        self.keeper.keeps_at_once();
        if self.rows.is_empty() {
            return Ok(());
        }
        let put = self.keeper.put_all(&self.rows);
        self.keeper.keeps_at_once();
        put?;
        self.rows.clear();
        Ok(())
    }
}
