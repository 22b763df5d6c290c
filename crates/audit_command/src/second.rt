// The second verdict of an audit.
ghost use Rattle.std.specs.Prelude.{IfOk};
ghost use Rattle.audit_command.specs.Best.{IsSeasonSecond, IsSpecialSecond};
ghost use Rattle.audit_rules.specs.declared.verdict.Verdict.TheVariants.{Sound as SoundVerdict};
ghost use Rattle.special_audit.specs.Found.{HasVerdict};

use best_audit::{BestVerdict, best_rounds};
use dossier_file::Dossier;
use office_base::{CandId, OutOfMemory};
use std::alloc::Global;

/// Whether every round is the best one, or which is the first that is not, with the first candidate whom the best round gives a
/// better place. The special round comes last.
#[derive(Clone, Copy, Debug, PartialEq, Eq)]
pub enum Second {
    /// Every round is the best one, and so is the special round, if there is one.
    AllBest,
    /// The round of this number is not the best one.
    NotBestRound { round: u16, cand: CandId },
    /// Every round is the best one, but the special round is not.
    NotBestSpecial { cand: CandId },
}

/// Returns the second verdict on a season of which no clause is broken.
pub(crate) fn season_second(
    alloc: Global,
    dossier: &Dossier,
    rounds: u16,
) -> Result<Second, OutOfMemory>
    requires { HasVerdict dossier.now (SoundVerdict rounds) }
    ensures { IfOk result (IsSeasonSecond dossier.now) }
{
    match best_rounds(alloc, dossier)? {
        BestVerdict::Best => Ok(Second::AllBest),
        BestVerdict::NotBest { round, cand } => Ok(Second::NotBestRound { round, cand }),
    }
}

/// Returns the second verdict on a season and its special round, if no clause of either is broken.
pub(crate) fn special_second(
    alloc: Global,
    dossier: &Dossier,
    rounds: u16,
    special: &Dossier,
    number: u16,
) -> Result<Second, OutOfMemory>
    requires season { HasVerdict dossier.now (SoundVerdict rounds) }
    requires special { HasVerdict special.now (SoundVerdict number) }
    ensures { IfOk result (IsSpecialSecond dossier.now special.now) }
{
    match best_rounds(alloc, dossier)? {
        BestVerdict::Best => match best_rounds(alloc, special)? {
            BestVerdict::Best => Ok(Second::AllBest),
            BestVerdict::NotBest { cand, .. } => Ok(Second::NotBestSpecial { cand }),
        },
        BestVerdict::NotBest { round, cand } => Ok(Second::NotBestRound { round, cand }),
    }
}
