// What is wrong with a sheet.
ghost use Rattle.std.specs.Prelude.{◌≡◌, ◌++◌, Some, codes};
ghost use Rattle.std.specs.Fmt.{decimal};
ghost use Rattle.step_command.specs.Output.{kind_name};
ghost use Rattle.step_command.specs.declared.fault.SheetError.TheVariants.{OutOfMemory};

use std::alloc::{AllocError, AllocFailed};
use std::fmt;

/// The kind of a fault.
#[derive(Clone, Copy, Debug, PartialEq, Eq)]
pub enum SheetKind {
    /// Line 1 is not `step sheet 1`.
    BadFirstLine,
    /// A line that may not be there or has a bad field, or the end of the input where the line of the seats is due.
    BadLine,
    /// A line that protects seats for a trait named before.
    RepeatedProtect,
    /// A line of a candidate given before.
    RepeatedCandidate,
    /// A line with which more seats are protected than there are.
    ProtectionsExceedSeats,
    /// A candidate line after 250,000 others.
    TooMany,
    /// More than 16,777,216 bytes.
    TooLong,
}

/// The first fault of a sheet. Lines are counted from 1; a sheet that is too long has its fault at line 0.
#[derive(Clone, Copy, Debug, PartialEq, Eq)]
pub struct SheetFault {
    pub line: u32,
    pub kind: SheetKind,
}

/// Why a sheet gave no step.
#[derive(Clone, Copy, Debug, PartialEq, Eq, thiserror::Error)]
pub enum SheetError {
    #[error("{0}")]
    Bad(SheetFault),
    #[error("out of memory")]
    OutOfMemory,
}

impl SheetKind {
    /// The name, as the fault's line spells it.
    pub fn name(self) -> &'static str
        ensures { result.now ≡ kind_name self }
    {
        match self {
            SheetKind::BadFirstLine => "BadFirstLine",
            SheetKind::BadLine => "BadLine",
            SheetKind::RepeatedProtect => "RepeatedProtect",
            SheetKind::RepeatedCandidate => "RepeatedCandidate",
            SheetKind::ProtectionsExceedSeats => "ProtectionsExceedSeats",
            SheetKind::TooMany => "TooMany",
            SheetKind::TooLong => "TooLong",
        }
    }
}

impl fmt::Display for SheetKind {
    ghost output = { λ kind. Some (kind_name kind) };

    fn fmt<W: fmt::Write>(&self, f: &mut fmt::Formatter<W>) -> fmt::Result {
        f.write_str(self.name())
    }
}

impl fmt::Display for SheetFault {
    ghost output = { λ fault. Some (codes "sheet line " ++ decimal fault.line ++ codes " " ++ kind_name fault.kind) };

    fn fmt<W: fmt::Write>(&self, f: &mut fmt::Formatter<W>) -> fmt::Result {
        write!(f, "sheet line {} {}", self.line, self.kind)
    }
}

impl From<office_base::OutOfMemory> for SheetError {
    ghost from_gives = { λ _ e. e ≡ OutOfMemory };

    fn from(_: office_base::OutOfMemory) -> Self {
        SheetError::OutOfMemory
    }
}

impl<T: Drop> From<AllocFailed<T>> for SheetError {
    ghost from_gives = { λ _ e. e ≡ OutOfMemory };

    fn from(_: AllocFailed<T>) -> Self {
        SheetError::OutOfMemory
    }
}
