// A keeper in memory that never fails: its count of faults is the constant 0.
ghost use Rattle.std.specs.Prelude.{◌≡◌, ◌≤◌, ◌-◌, ℕ, Bool, true, false, List, OnOk, OnErr, IsErrOf, IfOk, MatchOption};
ghost use Rattle.kept_rows.specs.Tables.{NoSeason};

use crate::memory::Memory;
use crate::{KeepFault, Keeper, Teller};
use kept_rows::{AllotRow, AnswerRow, Kept, RaiseRow};
use std::alloc::Global;
use std::marker::Model;

/// Keeps tables in memory. They are visible, and it holds room in advance. It never fails.
#[derive(Drop)]
pub struct SureKeeper {
    memory: Memory,
}

impl Model for SureKeeper {
    ghost use Rattle.keeper_mem.specs.Memory.{Memory as Seen};

    ghost Value = { Seen };

    ghost view = { λ a. a.memory };
}

impl SureKeeper {
    /// Makes a keeper without a season. It allocates nothing.
    pub fn new(alloc: Global) -> SureKeeper
        ensures { result ≡ record { tables = NoSeason; spare = 0 } }
    {
        SureKeeper {
            memory: Memory::new(alloc),
        }
    }
}

impl Keeper for SureKeeper {
    ghost use Rattle.std.specs.Prelude.{true};

    ghost seen = { λ k. record { tables = k.tables; kept = k.tables; settled = true; faults = 0; holds_room = true; spare = k.spare } };

    fn has_season(&mut self) -> Result<bool, KeepFault> {
        Ok(self.memory.has_season())
    }

    fn put_season(&mut self, text: &[u8]) -> Result<(), KeepFault> {
        self.memory.put_season(text)?;
        Ok(())
    }

    fn reserve_answers(&mut self, n: u32) -> Result<(), KeepFault> {
        self.memory.reserve_answers(n)?;
        Ok(())
    }

    fn put_answer(&mut self, row: AnswerRow) -> Result<(), KeepFault> {
        self.memory.put_answer(row)?;
        Ok(())
    }

    fn put_raise(&mut self, row: RaiseRow) -> Result<(), KeepFault> {
        self.memory.put_raise(row)?;
        Ok(())
    }

    fn put_cut(&mut self, rows: &[AllotRow]) -> Result<(), KeepFault> {
        self.memory.put_cut(rows)?;
        Ok(())
    }

    fn load(&mut self, alloc: Global) -> Result<Option<Kept>, KeepFault> {
        Ok(self.memory.load(alloc)?)
    }

    fn is_settled(&self) -> bool {
        true
    }

    fn settle(&mut self) -> Result<(), KeepFault> {
        Ok(())
    }
}

impl Teller for SureKeeper {
    fn tells(&self) {
        let _ = self.memory.has_season();
    }
}
