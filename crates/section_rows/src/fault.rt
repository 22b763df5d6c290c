// Why a table was not read, whatever it is a table of.
ghost use Rattle.std.specs.Prelude.{◌≡◌};
ghost use Rattle.section_rows.specs.declared.fault.TableFault.TheVariants.{OutOfMemory as NoMemory};

use office_base::OutOfMemory;
use std::fmt::Debug;

/// Why a table was not read. Nothing is left behind.
#[derive(Clone, Copy, Debug, PartialEq, Eq, thiserror::Error)]
#[error_bound(K: Debug)]
pub enum TableFault<K> {
    /// The first fault by rows. Rows are counted from 1, the header included.
    #[error("row {row}: {kind:?}")]
    Bad { row: u32, kind: K },
    /// There was no memory for the table.
    #[error("out of memory")]
    OutOfMemory,
}

impl<K> From<OutOfMemory> for TableFault<K> {
    ghost from_gives = { λ _ fault. fault ≡ NoMemory };

    fn from(_: OutOfMemory) -> Self {
        TableFault::OutOfMemory
    }
}
