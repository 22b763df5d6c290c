// Many rows that are put together.
ghost use Rattle.std.specs.Prelude.{◌≡◌, true, length};

use crate::{KeepFault, Keeper};
use kept_rows::{AnswerRow, RaiseRow};

/// A row that waits to be put: an answer or a raise.
#[derive(Clone, Copy, PartialEq, Eq)]
pub enum Put {
    /// An accepted answer.
    Answer(AnswerRow),
    /// An accepted raise.
    Raise(RaiseRow),
}

/// A keeper that can put many rows in one call, and lets no row wait: what a call puts is kept when it returns.
pub trait Batch: Keeper {
    ghost use Rattle.keeper_mem.specs.Batch.{with_all};
    ghost use Rattle.keeper_mem.specs.Keeper.{IsPut};
    ghost use Rattle.kept_rows.specs.Tables.{IsFound};

    /// Puts the rows after the others, in their order: all of them or none.
    fn put_all(&mut self, rows: &[Put]) -> Result<(), KeepFault>
        requires { IsFound true (Self.seen self.old).tables }
        ensures { IsPut (with_all rows.now) (length rows.now)
            (Self.seen self.old) (Self.seen self.new) result };

    /// Shows that no row waits, so that all tables are kept. It does nothing.
    fn keeps_at_once(&self)
        ensures settled { (Self.seen self.now).settled ≡ true }
        ensures kept { (Self.seen self.now).kept ≡ (Self.seen self.now).tables };
}
