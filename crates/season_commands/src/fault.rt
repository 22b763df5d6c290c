// Why a run did not answer all requests, or not write all replies.
ghost use Rattle.std.specs.Prelude.{◌≡◌};
ghost use Rattle.season_commands.specs.Faults.{run_fault};
ghost use Rattle.season_commands.specs.declared.fault.RunFault.TheVariants.{OutOfMemory as NoMemory, WriteFault as NotWritten};

use office_base::{Failed, OutOfMemory};
use round_cut::OfficeFault;

/// Why a run ended before all requests are answered and all replies are written.
#[derive(Clone, Copy, Debug, PartialEq, Eq, thiserror::Error)]
pub enum RunFault {
    /// The keeper failed at the next request: its count of faults rose. The replies before it are written.
    #[error("the keeper failed")]
    KeeperFault,
    /// Memory ran out for the next request, or for the reply to the last one. The replies before it are written.
    #[error("out of memory")]
    OutOfMemory,
    /// The sink failed: its count of faults rose.
    /// A prefix of the reply to the last answered request is written, and the replies before it are written whole.
    #[error("the sink failed")]
    WriteFault,
}

impl From<OfficeFault> for RunFault {
    ghost from_gives = { λ fault made. made ≡ run_fault fault };

    fn from(fault: OfficeFault) -> Self {
        match fault {
            OfficeFault::KeeperFault => RunFault::KeeperFault,
            OfficeFault::OutOfMemory => RunFault::OutOfMemory,
        }
    }
}

impl From<OutOfMemory> for RunFault {
    ghost from_gives = { λ _ made. made ≡ NoMemory };

    fn from(_: OutOfMemory) -> Self {
        RunFault::OutOfMemory
    }
}

impl From<Failed> for RunFault {
    ghost from_gives = { λ _ made. made ≡ NotWritten };

    fn from(_: Failed) -> Self {
        RunFault::WriteFault
    }
}
