// The accepted raises in their order, and their keys sorted for a search.
ghost use Rattle.std.specs.Prelude.{◌≡◌, ◌≤◌, ◌+◌, ◌++◌, ◌∷◌, [], false, OnOk};
ghost use Rattle.std.specs.List.{list_any};
ghost use Rattle.office_moves.specs.Decided.{same_raise};

use kept_rows::RaiseRow;
use office_base::{OutOfMemory, step_number};
use std::alloc::Global;
use std::marker::Model;

/// The window, the programme, the step and the seats of a raise. Two raises are one if and only if their keys are.
type Key = (u16, u16, u8, u16);

/// The accepted raises.
#[derive(Drop)]
pub(crate) struct AcceptedRaises {
    /// In the order in which they were accepted. Contracts speak of it, and no call reads it.
    rows: Vec<RaiseRow>,
    /// Their keys, sorted.
    sorted: Vec<Key>,
}

impl Model for AcceptedRaises {
    ghost use Rattle.std.specs.Prelude.{◌-◌, min, vec_capacity, vec_len};
    ghost use Rattle.raised_seats.specs.Keys.{Accepted, AreSortedKeys};

    ghost Value = { Accepted };

    ghost view = { λ a. record { rows = a.rows.items; room = min (vec_capacity a.rows - vec_len a.rows) (vec_capacity a.sorted - vec_len a.sorted) } };

    ghost invariant = { λ a. AreSortedKeys a.rows.items a.sorted.items };
}

impl AcceptedRaises {
    /// Returns no raises.
    pub(crate) fn new(alloc: Global) -> AcceptedRaises
        ensures { result.rows ≡ [] }
    {
        AcceptedRaises {
            rows: Vec::new(alloc),
            sorted: Vec::new(alloc),
        }
    }

    /// Returns whether this very raise was accepted. It searches among the sorted keys.
    pub(crate) fn has(&self, row: RaiseRow) -> bool
        ensures { result ≡ list_any (same_raise row) self.now.rows }
    {
        let sought = (row.window, row.prog.0, step_number(row.step), row.seats);
        self.sorted.binary_search(&sought).is_ok()
    }

    /// Takes room for one more raise. When memory runs out, all is unchanged, and there is no less room.
    pub(crate) fn reserve(&mut self) -> Result<(), OutOfMemory>
        ensures rows { self.new.rows ≡ self.old.rows }
        ensures more { self.old.room ≤ self.new.room }
        ensures room { OnOk result (1 ≤ self.new.room) }
    {
        self.rows.reserve(1)?;
        self.sorted.reserve(1)?;
        Ok(())
    }

    /// Puts a raise after the others. It takes no memory. Windows never fall in a season, so only keys of the same window are moved.
    pub(crate) fn put(&mut self, row: RaiseRow)
        requires fresh { list_any (same_raise row) self.old.rows ≡ false }
        requires space { 1 ≤ self.old.room }
        ensures rows { self.new.rows ≡ self.old.rows ++ row ∷ [] }
        ensures room { self.old.room ≤ self.new.room + 1 }
    {
        let key = (row.window, row.prog.0, step_number(row.step), row.seats);
        let Err(at) = self.sorted.binary_search(&key) else {
            unreachable!("it is none of the others")
        };
        let Ok(_) = self.sorted.insert(at, key) else {
            unreachable!("there is room for its key")
        };
        let Ok(_) = self.rows.push(row) else {
            unreachable!("there is room for it")
        };
    }
}
