// What can be wrong with a bundle with units.
ghost use Rattle.std.specs.Prelude.{◌≡◌};
ghost use Rattle.quota_units.specs.declared.fault.UnitFault.TheVariants.{OutOfMemory as NoMemory};

use office_base::OutOfMemory;

/// Why no plain bundle was made.
#[derive(Clone, Copy, Debug, PartialEq, Eq)]
pub enum UnitFault {
    /// The source failed: its count of faults rose.
    ReadFault,
    /// There are more than 134,217,728 bytes.
    TooLong,
    /// The first line is not `office units 1`.
    BadFirstLine,
    /// The first wrong line before the bundle, or the line at which a section or the bundle is missing.
    Section { line: u32 },
    /// The first row of the units that gives none.
    BadUnit { row: u32 },
    /// The first row of the states that gives none.
    BadState { row: u32 },
    /// The row of the choices that names a unit itself.
    DirectUnit { row: u32 },
    /// The row of the choices that names a divided programme for a candidate without a state.
    NoState { row: u32 },
    /// There was no memory.
    OutOfMemory,
}

impl From<OutOfMemory> for UnitFault {
    ghost from_gives = { λ _ fault. fault ≡ NoMemory };

    fn from(_: OutOfMemory) -> Self {
        UnitFault::OutOfMemory
    }
}
