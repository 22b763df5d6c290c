// A keeper in memory that fails at chosen calls.
ghost use Rattle.std.specs.Prelude.{◌≡◌, ◌≤◌, ◌-◌, ◌↔◌, ℕ, Bool, true, false, List, length, OnOk, OnErr, IsErrOf, IfOk, IsTrue, MatchOption, Contains};
ghost use Rattle.office_base.specs.Memory.{counted};
ghost use Rattle.office_base.specs.Outside.{Rose};
ghost use Rattle.keeper_mem.specs.Batch.{with_all};
ghost use Rattle.keeper_mem.specs.Keeper.{IsLook, IsPut, TakesRoom};
ghost use Rattle.keeper_mem.specs.Memory.{fresh_keeper, keeper_view_of};
ghost use Rattle.kept_rows.specs.Tables.{NoSeason, Records, with_season, with_answer, with_raise, with_cut, AreTold, IsFound, IsLoaded};

use crate::memory::Memory;
use crate::{Batch, KeepFault, Keeper, Put, Teller};
use kept_rows::{AllotRow, AnswerRow, Kept, RaiseRow};
use office_base::{OutOfMemory, fails_at};
use std::alloc::Global;
use std::marker::Model;

/// Keeps tables in memory. They are visible, and it holds room in advance. The calls with the numbers in `fail_at`,
/// from 1 over all its methods, answer Failed, and no other call does.
#[derive(Drop)]
pub struct MemKeeper {
    memory: Memory,
    calls: u64,
    fail_at: Vec<u32>,
    faults: u64,
}

impl Model for MemKeeper {
    ghost use Rattle.keeper_mem.specs.Memory.{FailingMemory};

    ghost Value = { FailingMemory };

    ghost view = { λ a. record { memory = a.memory; calls = a.calls; fail_at = a.fail_at.items; faults = a.faults } };
}

impl MemKeeper {
    /// Makes a keeper without a season.
    pub fn new(alloc: Global, fail_at: &[u32]) -> Result<MemKeeper, OutOfMemory>
        ensures { IfOk result (λ keeper. keeper ≡ fresh_keeper NoSeason fail_at.now) }
    {
        Ok(MemKeeper {
            memory: Memory::new(alloc),
            calls: 0,
            fail_at: Vec::from_slice(alloc, fail_at)?,
            faults: 0,
        })
    }

    /// Makes a keeper with the records of a season.
    pub fn from_tables(alloc: Global, kept: Kept, fail_at: &[u32]) -> Result<MemKeeper, OutOfMemory>
        ensures { IfOk result (λ keeper. keeper ≡ fresh_keeper (Records kept) fail_at.now) }
    {
        let fail_at = Vec::from_slice(alloc, fail_at)?;
        Ok(MemKeeper {
            memory: Memory::from_kept(alloc, kept)?,
            calls: 0,
            fail_at,
            faults: 0,
        })
    }

    // Counts a call, and fails if its number is one of those that must fail.
    fn begin_call(&mut self) -> Result<(), KeepFault>
        ensures same { self.new
            ≡ record self.old { calls = counted self.old.calls; faults = self.new.faults } }
        ensures count { self.old.faults ≤ self.new.faults }
        ensures ok { OnOk result (self.new.faults ≡ self.old.faults) }
        ensures err { OnErr result (self.new.faults ≡ counted self.old.faults) }
        ensures failed { OnErr result (IsErrOf result KeepFault.Failed) }
        ensures fails { OnErr result (Contains self.old.fail_at (counted self.old.calls)) }
        ensures passes { OnOk result (Contains self.old.fail_at (counted self.old.calls) → ⊥) }
    {
        self.calls = self.calls.saturating_add(1);
        if fails_at(&self.fail_at, self.calls) {
            self.faults = self.faults.saturating_add(1);
            return Err(KeepFault::Failed);
        }
        Ok(())
    }
}

impl Keeper for MemKeeper {
    ghost use Rattle.keeper_mem.specs.Memory.{keeper_view_of};
    ghost use Rattle.std.specs.Prelude.{true};

    ghost seen = { keeper_view_of };

    fn has_season(&mut self) -> Result<bool, KeepFault>
        ensures ok { IfOk result (λ found. IsFound found self.new.memory.tables) }
        ensures look { IsLook (keeper_view_of self.old) (keeper_view_of self.new) result }
        // it fails if and only if its number is in the list
        ensures fails { IsErrOf result KeepFault.Failed
            ↔ Contains self.old.fail_at (counted self.old.calls) }
        ensures calls { self.new.calls ≡ counted self.old.calls }
        ensures told_to { self.new.fail_at ≡ self.old.fail_at }
        ensures by_one { IsErrOf result KeepFault.Failed
            → self.new.faults ≡ counted self.old.faults }
    {
        self.begin_call()?;
        Ok(self.memory.has_season())
    }

    fn put_season(&mut self, text: &[u8]) -> Result<(), KeepFault>
        requires { IsFound false self.old.memory.tables }
        ensures put { IsPut (with_season text.now) 0
            (keeper_view_of self.old) (keeper_view_of self.new) result }
        // it fails if and only if its number is in the list
        ensures fails { IsErrOf result KeepFault.Failed
            ↔ Contains self.old.fail_at (counted self.old.calls) }
        ensures calls { self.new.calls ≡ counted self.old.calls }
        ensures told_to { self.new.fail_at ≡ self.old.fail_at }
        ensures by_one { IsErrOf result KeepFault.Failed
            → self.new.faults ≡ counted self.old.faults }
    {
        self.begin_call()?;
        self.memory.put_season(text)?;
        Ok(())
    }

    fn reserve_answers(&mut self, n: u32) -> Result<(), KeepFault>
        ensures takes { TakesRoom n (keeper_view_of self.old) (keeper_view_of self.new) result }
        // it fails if and only if its number is in the list
        ensures fails { IsErrOf result KeepFault.Failed
            ↔ Contains self.old.fail_at (counted self.old.calls) }
        ensures calls { self.new.calls ≡ counted self.old.calls }
        ensures told_to { self.new.fail_at ≡ self.old.fail_at }
        ensures by_one { IsErrOf result KeepFault.Failed
            → self.new.faults ≡ counted self.old.faults }
    {
        self.begin_call()?;
        self.memory.reserve_answers(n)?;
        Ok(())
    }

    fn put_answer(&mut self, row: AnswerRow) -> Result<(), KeepFault>
        requires { IsFound true self.old.memory.tables }
        ensures put { IsPut (with_answer row) 1 (keeper_view_of self.old)
            (keeper_view_of self.new) result }
        ensures memory { IsErrOf result KeepFault.OutOfMemory → self.old.memory.spare ≡ 0 }
        // it fails if and only if its number is in the list
        ensures fails { IsErrOf result KeepFault.Failed
            ↔ Contains self.old.fail_at (counted self.old.calls) }
        ensures calls { self.new.calls ≡ counted self.old.calls }
        ensures told_to { self.new.fail_at ≡ self.old.fail_at }
        ensures by_one { IsErrOf result KeepFault.Failed
            → self.new.faults ≡ counted self.old.faults }
    {
        self.begin_call()?;
        self.memory.put_answer(row)?;
        Ok(())
    }

    fn put_raise(&mut self, row: RaiseRow) -> Result<(), KeepFault>
        requires { IsFound true self.old.memory.tables }
        ensures put { IsPut (with_raise row) 0 (keeper_view_of self.old)
            (keeper_view_of self.new) result }
        // it fails if and only if its number is in the list
        ensures fails { IsErrOf result KeepFault.Failed
            ↔ Contains self.old.fail_at (counted self.old.calls) }
        ensures calls { self.new.calls ≡ counted self.old.calls }
        ensures told_to { self.new.fail_at ≡ self.old.fail_at }
        ensures by_one { IsErrOf result KeepFault.Failed
            → self.new.faults ≡ counted self.old.faults }
    {
        self.begin_call()?;
        self.memory.put_raise(row)?;
        Ok(())
    }

    fn put_cut(&mut self, rows: &[AllotRow]) -> Result<(), KeepFault>
        requires { IsFound true self.old.memory.tables }
        ensures put { IsPut (with_cut rows.now) 0 (keeper_view_of self.old)
            (keeper_view_of self.new) result }
        // it fails if and only if its number is in the list
        ensures fails { IsErrOf result KeepFault.Failed
            ↔ Contains self.old.fail_at (counted self.old.calls) }
        ensures calls { self.new.calls ≡ counted self.old.calls }
        ensures told_to { self.new.fail_at ≡ self.old.fail_at }
        ensures by_one { IsErrOf result KeepFault.Failed
            → self.new.faults ≡ counted self.old.faults }
    {
        self.begin_call()?;
        self.memory.put_cut(rows)?;
        Ok(())
    }

    fn load(&mut self, alloc: Global) -> Result<Option<Kept>, KeepFault>
        ensures ok { IfOk result (λ found. MatchOption found
            (IsFound false self.new.memory.tables) (IsLoaded self.new.memory.tables)) }
        ensures look { IsLook (keeper_view_of self.old) (keeper_view_of self.new) result }
        // it fails if and only if its number is in the list
        ensures fails { IsErrOf result KeepFault.Failed
            ↔ Contains self.old.fail_at (counted self.old.calls) }
        ensures calls { self.new.calls ≡ counted self.old.calls }
        ensures told_to { self.new.fail_at ≡ self.old.fail_at }
        ensures by_one { IsErrOf result KeepFault.Failed
            → self.new.faults ≡ counted self.old.faults }
    {
        self.begin_call()?;
        Ok(self.memory.load(alloc)?)
    }

    fn is_settled(&self) -> bool {
        true
    }

    fn settle(&mut self) -> Result<(), KeepFault>
        ensures look { IsLook (keeper_view_of self.old) (keeper_view_of self.new) result }
        // it fails if and only if its number is in the list
        ensures fails { IsErrOf result KeepFault.Failed
            ↔ Contains self.old.fail_at (counted self.old.calls) }
        ensures calls { self.new.calls ≡ counted self.old.calls }
        ensures told_to { self.new.fail_at ≡ self.old.fail_at }
        ensures by_one { IsErrOf result KeepFault.Failed
            → self.new.faults ≡ counted self.old.faults }
    {
        self.begin_call()
    }
}

impl Batch for MemKeeper {
    fn put_all(&mut self, rows: &[Put]) -> Result<(), KeepFault>
        requires { IsFound true self.old.memory.tables }
        ensures put { IsPut (with_all rows.now) (length rows.now) (keeper_view_of self.old)
            (keeper_view_of self.new) result }
        // it fails if and only if its number is in the list
        ensures fails { IsErrOf result KeepFault.Failed
            ↔ Contains self.old.fail_at (counted self.old.calls) }
        ensures calls { self.new.calls ≡ counted self.old.calls }
        ensures told_to { self.new.fail_at ≡ self.old.fail_at }
        ensures by_one { IsErrOf result KeepFault.Failed
            → self.new.faults ≡ counted self.old.faults }
    {
        self.begin_call()?;
        self.memory.put_all(rows)?;
        Ok(())
    }

    fn keeps_at_once(&self) {}
}

impl Teller for MemKeeper {
    fn tells(&self) {
        let _ = self.memory.has_season();
    }
}
