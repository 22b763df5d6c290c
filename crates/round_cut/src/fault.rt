// Why an office does not begin, or does not answer.
ghost use Rattle.std.specs.Prelude.{◌≡◌};
ghost use Rattle.round_cut.specs.Faults.{begin_fault, office_fault};
ghost use Rattle.round_cut.specs.declared.fault.BeginFault.TheVariants.{OutOfMemory as NoMemoryToBegin};
ghost use Rattle.round_cut.specs.declared.fault.OfficeFault.TheVariants.{OutOfMemory as NoMemory};

use keeper_mem::KeepFault;
use office_base::OutOfMemory;

/// Why an office did not begin.
#[derive(Clone, Copy, Debug, PartialEq, Eq, thiserror::Error)]
pub enum BeginFault {
    /// The keeper holds a season.
    #[error("a season is kept")]
    NotEmpty,
    /// The keeper failed: its count of faults rose.
    #[error("the keeper failed")]
    KeeperFault,
    /// Memory ran out.
    #[error("out of memory")]
    OutOfMemory,
}

/// Why a request was not answered. The office and the tables of its keeper are unchanged.
#[derive(Clone, Copy, Debug, PartialEq, Eq, thiserror::Error)]
pub enum OfficeFault {
    /// The keeper failed: its count of faults rose.
    #[error("the keeper failed")]
    KeeperFault,
    /// Memory ran out.
    #[error("out of memory")]
    OutOfMemory,
}

impl From<KeepFault> for BeginFault {
    ghost from_gives = { λ fault made. made ≡ begin_fault fault };

    fn from(fault: KeepFault) -> Self {
        match fault {
            KeepFault::Failed => BeginFault::KeeperFault,
            KeepFault::OutOfMemory => BeginFault::OutOfMemory,
        }
    }
}

impl From<OutOfMemory> for BeginFault {
    ghost from_gives = { λ _ made. made ≡ NoMemoryToBegin };

    fn from(_: OutOfMemory) -> Self {
        BeginFault::OutOfMemory
    }
}

impl From<KeepFault> for OfficeFault {
    ghost from_gives = { λ fault made. made ≡ office_fault fault };

    fn from(fault: KeepFault) -> Self {
        match fault {
            KeepFault::Failed => OfficeFault::KeeperFault,
            KeepFault::OutOfMemory => OfficeFault::OutOfMemory,
        }
    }
}

impl From<OutOfMemory> for OfficeFault {
    ghost from_gives = { λ _ made. made ≡ NoMemory };

    fn from(_: OutOfMemory) -> Self {
        OfficeFault::OutOfMemory
    }
}
