// An office resumes from what its keeper holds.
ghost use Rattle.std.specs.Prelude.{◌≡◌, ◌≤◌, IfOk, IfErr, OnOk, IsErrOf};
ghost use Rattle.kept_rows.specs.Tables.{AreTold, IsLoaded};
ghost use Rattle.office_moves.specs.History.{IsHistory};
ghost use Rattle.office_moves.specs.Promise.{KeepsItsWord};
ghost use Rattle.office_moves.specs.Stands.{AreRecordsOf, Stand};
ghost use Rattle.proceedings.specs.Proceeding.{still_of};
ghost use Rattle.replays.specs.Acts.{kept_acts};
ghost use Rattle.replays.specs.Counted.{AreCounted, counted};
ghost use Rattle.keeper_mem.specs.Keeper.{Blames};
ghost use Rattle.round_cut.specs.Office.{HasRoom};
ghost use Rattle.replays.specs.Resume.{GoesOn, HaveStopped, IsResumeFault, IsUnresumed, LeadTo};
ghost use Rattle.replays.specs.Unresumed.{fault_of, load_fault, replay_fault, season_fault};

use crate::course::replay;
use crate::fault::{ReplayFault, ResumeFault};
use keeper_mem::{KeepFault, Keeper};
use kept_rows::Kept;
use office_base::{CandId, Seat};
use proceedings::Proceedings;
use round_cut::Office;
use season_file::{Season, SeasonFault};
use std::alloc::Global;

/// Why an office did not resume, as `ResumeFault` reports it. A difference comes with the season of the records, whose
/// codes the report needs.
#[derive(Drop)]
pub enum Unresumed {
    NoSeason,
    BadSeason(SeasonFault),
    Stray {
        row: u64,
    },
    StrayRaise {
        row: u64,
    },
    Differs {
        round: u16,
        cand: CandId,
        kept: Option<Seat>,
        computed: Option<Seat>,
        season: Season,
    },
    KeeperFault,
    OutOfMemory,
}

impl Unresumed {
    /// Returns that the records of this season are not replayed, with their fault.
    fn of(fault: ReplayFault, season: Season) -> Unresumed
        ensures { result ≡ replay_fault fault season }
    {
        match fault {
            ReplayFault::Stray { row } => Unresumed::Stray { row },
            ReplayFault::StrayRaise { row } => Unresumed::StrayRaise { row },
            ReplayFault::Differs {
                round,
                cand,
                kept,
                computed,
            } => Unresumed::Differs {
                round,
                cand,
                kept,
                computed,
                season,
            },
            ReplayFault::OutOfMemory => Unresumed::OutOfMemory,
        }
    }

    /// Returns the fault alone.
    pub fn fault(&self) -> ResumeFault
        ensures { result ≡ fault_of self.now }
    {
        match self {
            Unresumed::NoSeason => ResumeFault::NoSeason,
            Unresumed::BadSeason(fault) => ResumeFault::BadSeason(*fault),
            Unresumed::Stray { row } => ResumeFault::Stray { row: *row },
            Unresumed::StrayRaise { row } => ResumeFault::StrayRaise { row: *row },
            Unresumed::Differs {
                round,
                cand,
                kept,
                computed,
                season: _,
            } => ResumeFault::Differs {
                round: *round,
                cand: *cand,
                kept: *kept,
                computed: *computed,
            },
            Unresumed::KeeperFault => ResumeFault::KeeperFault,
            Unresumed::OutOfMemory => ResumeFault::OutOfMemory,
        }
    }
}

impl From<KeepFault> for Unresumed {
    ghost from_gives = { λ fault made. made ≡ load_fault fault };

    fn from(fault: KeepFault) -> Self {
        match fault {
            KeepFault::Failed => Unresumed::KeeperFault,
            KeepFault::OutOfMemory => Unresumed::OutOfMemory,
        }
    }
}

impl From<SeasonFault> for Unresumed {
    ghost from_gives = { λ fault made. made ≡ season_fault fault };

    fn from(fault: SeasonFault) -> Self {
        match fault {
            SeasonFault::OutOfMemory => Unresumed::OutOfMemory,
            fault => Unresumed::BadSeason(fault),
        }
    }
}

/// Returns the records of the keeper, and a fault if it holds no season.
#[tactic(auto, using(crate::proofs::Resumed::unloaded))]
fn load_records<K: Keeper>(alloc: Global, keeper: &mut K) -> Result<Kept, Unresumed>
    ensures loaded { IfOk result (λ records. IsLoaded (K.seen keeper.new).tables records) }
    ensures fault { IfErr result (λ fault. IsUnresumed (K.seen keeper.new).tables fault) }
    ensures told { AreTold (K.seen keeper.old).tables (K.seen keeper.new).tables }
    ensures blamed { Blames (IsErrOf result Unresumed.KeeperFault)
        (K.seen keeper.old) (K.seen keeper.new) }
{
    match keeper.load(alloc)? {
        Some(records) => Ok(records),
        None => Err(Unresumed::NoSeason),
    }
}

/// Returns the proceedings to which the records lead, or their first fault.
fn replay_records(alloc: Global, records: &Kept) -> Result<Proceedings, Unresumed>
    ensures led { IfOk result (λ book. LeadTo records.now book.season book.state) }
    ensures stands { IfOk result (λ book. AreRecordsOf book.season book.state records.now) }
    ensures entries { IfOk result (λ book. book.entries ≡ counted (kept_acts records.now)) }
    ensures counted { IfOk result (λ book. AreCounted book.entries) }
    ensures fault { IfErr result (λ fault. HaveStopped records.now fault) }
    ensures no_keeper { IsErrOf result Unresumed.KeeperFault → ⊥ }
{
    let season = Season::from_text(alloc, records.season.as_slice())?;
    let Ok(mut book) = Proceedings::begin(alloc, season) else {
        return Err(Unresumed::OutOfMemory);
    };
    match replay(alloc, &mut book, records) {
        Ok(()) => Ok(book),
        Err(fault) => Err(Unresumed::of(fault, book.into_season())),
    }
}

/// Takes room for the answers of all who are still in.
#[tactic(auto, using(crate::proofs::Resumed::unloaded))]
fn take_room<K: Keeper>(book: &Proceedings, keeper: &mut K) -> Result<(), Unresumed>
    ensures spare { OnOk result
        (HasRoom (K.seen keeper.new).holds_room book.now.still (K.seen keeper.new).spare) }
    ensures fault { IfErr result (λ fault. IsUnresumed (K.seen keeper.new).tables fault) }
    ensures told { AreTold (K.seen keeper.old).tables (K.seen keeper.new).tables }
    ensures blamed { Blames (IsErrOf result Unresumed.KeeperFault)
        (K.seen keeper.old) (K.seen keeper.new) }
{
    keeper.reserve_answers(book.still_in())?;
    Ok(())
}

/// An office that can resume from what a keeper holds.
pub trait Resume<K: Keeper>: Sized {
    /// Resumes from what the keeper holds. After a fault it returns the keeper.
    fn resume(alloc: Global, keeper: K) -> Result<Self, (K, ResumeFault)>;
}

impl<K: Keeper> Resume<K> for Office<K> {
    /// Resumes an office from what the keeper holds.
    /// For each window it accepts the kept raises again, then the answers, then the cut, and compares the kept seats
    /// with those that the cut gives.
    /// The entries have the numbers 1, 2, 3 and so on.
    /// The tables are unchanged. After a fault it returns the keeper.
    /// If the tables are hidden, the keeper is judged by the records that it returned.
    #[tactic(auto, using(crate::proofs::Resumed::told_fault, crate::proofs::Resumed::keeper_failed, crate::proofs::Resumed::failed_alone))]
    fn resume(alloc: Global, keeper: K) -> Result<Office<K>, (K, ResumeFault)>
        ensures ok { IfOk result (GoesOn K.seen keeper) }
        ensures fault { IfErr result (λ e. IsResumeFault (K.seen e.0).tables e.1) }
        ensures err { IfErr result (λ e. AreTold (K.seen keeper).tables (K.seen e.0).tables) }
        ensures blamed_err { IfErr result (λ e.
            Blames (e.1 ≡ ResumeFault.KeeperFault) (K.seen keeper) (K.seen e.0)) }
    {
        match resume_or_season(alloc, keeper) {
            Ok(office) => Ok(office),
            Err((keeper, stopped)) => {
                let fault = stopped.fault();
                Err((keeper, fault))
            }
        }
    }
}

/// Resumes as `Office::resume` does. If a kept seat is not the computed one, it also returns the season of the records, so
/// that the difference can be reported with its codes.
#[tactic(auto, using(crate::proofs::Resumed::stopped, crate::proofs::Resumed::loaded_told))]
pub fn resume_or_season<K: Keeper>(
    alloc: Global,
    mut keeper: K,
) -> Result<Office<K>, (K, Unresumed)>
    ensures ok { IfOk result (GoesOn K.seen keeper) }
    ensures fault { IfErr result (λ e. IsUnresumed (K.seen e.0).tables e.1) }
    ensures err { IfErr result (λ e. AreTold (K.seen keeper).tables (K.seen e.0).tables) }
    ensures blamed_err { IfErr result (λ e.
        Blames (e.1 ≡ Unresumed.KeeperFault) (K.seen keeper) (K.seen e.0)) }
{
    let records = match load_records(alloc, &mut keeper) {
        Ok(records) => records,
        Err(stopped) => return Err((keeper, stopped)),
    };
    let book = match replay_records(alloc, &records) {
        Ok(book) => book,
        Err(stopped) => return Err((keeper, stopped)),
    };
    if let Err(stopped) = take_room(&book, &mut keeper) {
        return Err((keeper, stopped));
    }
    let _entries = book.entries();
    let _still = book.still_in();
    Ok(Office::over(book, keeper))
}
