// Why records are not replayed, and why an office does not resume from them.
ghost use Rattle.std.specs.Prelude.{◌≡◌};
ghost use Rattle.replays.specs.declared.fault.ReplayFault.TheVariants.{OutOfMemory as NoMemory};

use office_base::{CandId, OutOfMemory, Seat};
use season_file::SeasonFault;

/// Why kept records are not replayed: the first fault by windows, and inside a window the raises first, then the answers, then the cut with its seats.
#[derive(Clone, Copy, Debug, PartialEq, Eq)]
pub enum ReplayFault {
    /// The kept answer at this place of its table, counted from 1, is not newly accepted when the replay reaches it.
    /// Place 0 means that a cut is counted for the window after the last one.
    Stray {
        row: u64,
    },
    /// The kept raise at this place of its table, counted from 1, is not newly accepted when the replay reaches it.
    StrayRaise {
        row: u64,
    },
    /// The kept seats of a round are not the computed ones: the first round, and in it the first candidate by id, with both seats.
    Differs {
        round: u16,
        cand: CandId,
        kept: Option<Seat>,
        computed: Option<Seat>,
    },
    /// There was no memory.
    OutOfMemory,
}

/// Why an office did not resume from the records of a keeper, whose tables are unchanged.
/// Of two faults, the one of the earlier window is reported.
/// In a window, a stray raise is reported before a stray answer, and a stray answer before a difference.
#[derive(Clone, Copy, Debug, PartialEq, Eq, thiserror::Error)]
pub enum ResumeFault {
    /// No season is kept.
    #[error("no season is kept")]
    NoSeason,
    /// The kept text is no bundle of a season without requests: its first fault, which is never that memory ran out.
    #[error("the kept season: {0}")]
    BadSeason(SeasonFault),
    /// The kept answer at this place of its table, counted from 1,
    /// is the first that is not newly accepted at that place.
    /// With 0, the cuts exceed the rounds by more than one.
    #[error("stray answer {row}")]
    Stray {
        row: u64,
    },
    /// The kept raise at this place of its table, counted from 1,
    /// is the first that is not newly accepted at that place.
    #[error("stray raise {row}")]
    StrayRaise {
        row: u64,
    },
    /// The kept seats of a round are not the computed ones.
    /// It names the first such round, and in it the first candidate by id, with both seats.
    /// The final seats have the number of rounds plus 1.
    #[error("the kept seats of round {round} are not the computed ones")]
    Differs {
        round: u16,
        cand: CandId,
        kept: Option<Seat>,
        computed: Option<Seat>,
    },
    /// The keeper failed: its count of faults rose.
    #[error("the keeper failed")]
    KeeperFault,
    /// Memory ran out.
    #[error("out of memory")]
    OutOfMemory,
}

impl From<OutOfMemory> for ReplayFault {
    ghost from_gives = { λ _ made. made ≡ NoMemory };

    fn from(_: OutOfMemory) -> Self {
        ReplayFault::OutOfMemory
    }
}
