// The answer of the command `audit best`.
ghost use Rattle.std.specs.Prelude.{IfOk};
ghost use Rattle.command_answers.specs.Answers.{Reads};
ghost use Rattle.office_base.specs.Visible.{source_of};
ghost use Rattle.audit_command.specs.Best.{AreVerdicts, IsBestAnswerTo, IsBestOfLeft, TellsSecond, best_answers};
ghost use Rattle.audit_rules.specs.declared.verdict.Verdict.TheVariants.{Sound as SoundVerdict};
ghost use Rattle.special_audit.specs.Found.{HasVerdict};
ghost use Rattle.special_audit.specs.declared.found.Found.TheVariants.{OfSeason, OfSpecial};

use crate::answer::Audited;
use crate::read::read_found;
use crate::second::{Second, season_second, special_second};
use crate::texts::{push_second, special_verdict_text, verdict_text};
use audit_rules::Verdict;
use command_answers::Failure;
use dossier_file::Dossier;
use office_base::{OutOfMemory, Source, Text};
use special_audit::Found;
use std::alloc::Global;

/// Returns the verdict on the dossier that the source gives and, if no clause is broken, whether every published round is the best one.
pub fn best_answer<S: Source>(alloc: Global, source: &mut S) -> Result<Audited, Failure>
    ensures { Reads best_answers IsBestOfLeft (source_of S.Source source.old)
        (source_of S.Source source.new) result }
{
    match read_found(alloc, source) {
        Ok(found) => Ok(answer_to(alloc, found)?),
        Err(failure) => Err(failure),
    }
}

/// Returns the answer that tells what `audit best` finds.
fn answer_to(alloc: Global, found: Found) -> Result<Audited, OutOfMemory>
    requires { AreVerdicts found }
    ensures { IfOk result (IsBestAnswerTo found) }
{
    match found {
        Found::OfSeason { dossier, verdict } => season_best(alloc, &dossier, verdict),
        Found::OfSpecial {
            dossier,
            rounds,
            special,
            verdict,
        } => special_best(alloc, &dossier, rounds, &special, verdict),
    }
}

/// Returns the answer to a season: its verdict and, if no clause is broken, the second one.
fn season_best(alloc: Global, dossier: &Dossier, verdict: Verdict) -> Result<Audited, OutOfMemory>
    requires { HasVerdict dossier.now verdict }
    ensures { IfOk result (IsBestAnswerTo (OfSeason dossier.now verdict)) }
{
    let line = verdict_text(alloc, &dossier.season.matrix, verdict)?;
    match verdict {
        Verdict::Sound { rounds } => {
            let second = season_second(alloc, dossier, rounds)?;
            with_second(alloc, line, second)
        }
        Verdict::Broken { .. } => Ok(Audited::Broken(line)),
    }
}

/// Returns the answer to a special round behind a season of which no clause is broken.
fn special_best(
    alloc: Global,
    dossier: &Dossier,
    rounds: u16,
    special: &Dossier,
    verdict: Verdict,
) -> Result<Audited, OutOfMemory>
    requires season { HasVerdict dossier.now (SoundVerdict rounds) }
    requires special { HasVerdict special.now verdict }
    ensures { IfOk result (IsBestAnswerTo (OfSpecial dossier.now rounds special.now verdict)) }
{
    let line = special_verdict_text(alloc, &special.season.matrix, rounds, verdict)?;
    match verdict {
        Verdict::Sound { rounds: number } => {
            let second = special_second(alloc, dossier, rounds, special, number)?;
            with_second(alloc, line, second)
        }
        Verdict::Broken { .. } => Ok(Audited::Broken(line)),
    }
}

/// Returns the answer that tells a second verdict behind the line of a sound one.
fn with_second(alloc: Global, line: Text, second: Second) -> Result<Audited, OutOfMemory>
    ensures { IfOk result (TellsSecond line second) }
{
    let mut lines = line;
    push_second(alloc, &mut lines, second)?;
    match second {
        Second::AllBest => Ok(Audited::Sound(lines)),
        Second::NotBestRound { .. } => Ok(Audited::Broken(lines)),
        Second::NotBestSpecial { .. } => Ok(Audited::Broken(lines)),
    }
}
