// Why there is no special round.
ghost use Rattle.std.specs.Prelude.{◌≡◌};
ghost use Rattle.special_round.specs.declared.fault.SpecialFault.TheVariants.{OutOfMemory as NoMemory};

use choice_lists::ChoiceFault;
use office_base::OutOfMemory;

/// Why there is no special round, in the order in which the causes are looked for. Nothing is left behind.
#[derive(Clone, Copy, Debug, PartialEq, Eq, thiserror::Error)]
pub enum SpecialFault {
    /// The final cut is not made; so many cuts are.
    #[error("the final cut is not made, but {now} cuts are")]
    NotFinal { now: u16 },
    /// The lists have a fault. It is their first by rows, checked against the register and the matrix of the season.
    #[error("the lists: {0}")]
    Lists(ChoiceFault),
    /// This row of the lists, counted from 1 with the header, is the first whose candidate has a final row.
    #[error("row {row} is of a candidate with a final row")]
    Admitted { row: u32 },
    /// There is no memory.
    #[error("out of memory")]
    OutOfMemory,
}

impl From<OutOfMemory> for SpecialFault {
    ghost from_gives = { λ _ fault. fault ≡ NoMemory };

    fn from(_: OutOfMemory) -> Self {
        SpecialFault::OutOfMemory
    }
}
