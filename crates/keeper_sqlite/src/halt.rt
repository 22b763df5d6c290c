// Why a transaction was rolled back.
ghost use Rattle.std.specs.Prelude.{◌≡◌};
ghost use Rattle.keeper_sqlite.specs.declared.halt.Halt.TheVariants.{Refused, NoMemory};

use office_base::OutOfMemory;
use sqlite::Error;

/// Why a transaction did not complete. Nothing of it is kept.
#[derive(Clone, Copy, Debug, PartialEq, Eq, Drop)]
pub(crate) enum Halt {
    /// The database refused a statement or failed.
    Refused(Error),
    /// The connection is in a transaction that somebody else began.
    InTransaction,
    /// A row is no record, or must not exist together with the new ones.
    Unfit,
    /// Memory ran out for what was read.
    NoMemory,
}

impl From<Error> for Halt {
    ghost from_gives = { λ error halt. halt ≡ Refused error };

    fn from(error: Error) -> Self {
        Halt::Refused(error)
    }
}

impl From<OutOfMemory> for Halt {
    ghost from_gives = { λ _ halt. halt ≡ NoMemory };

    fn from(_: OutOfMemory) -> Self {
        Halt::NoMemory
    }
}
