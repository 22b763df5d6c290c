// The answer of the command `audit`.
ghost use Rattle.std.specs.Prelude.{IfOk};
ghost use Rattle.command_answers.specs.Answers.{Reads};
ghost use Rattle.office_base.specs.Visible.{source_of};
ghost use Rattle.audit_command.specs.Audit.{IsAnswerTo, IsAuditOf, TellsFound, audit_answers};
ghost use Rattle.audit_command.specs.Texts.{special_verdict_line, verdict_line};

use crate::read::read_found;
use crate::texts::{special_verdict_text, verdict_text};
use audit_rules::Verdict;
use command_answers::Failure;
use dossier_file::Dossier;
use office_base::{OutOfMemory, Source, Text};
use special_audit::Found;
use std::alloc::Global;

/// The result of an audit, with its lines.
#[derive(Drop)]
pub enum Audited {
    /// No clause is broken, and under `audit best` every round is the best one.
    Sound(Text),
    /// A clause is broken, and the line names the first one; or under `audit best` a round is not the best one, and the second line names the first.
    Broken(Text),
}

/// Returns the verdict on the dossier that the source gives, and on the special round behind it.
pub fn audit_answer<S: Source>(alloc: Global, source: &mut S) -> Result<Audited, Failure>
    ensures { Reads audit_answers IsAuditOf (source_of S.Source source.old)
        (source_of S.Source source.new) result }
{
    match read_found(alloc, source) {
        Ok(found) => Ok(answer_to(alloc, found)?),
        Err(failure) => Err(failure),
    }
}

/// Returns the answer that tells what is found.
fn answer_to(alloc: Global, found: Found) -> Result<Audited, OutOfMemory>
    ensures { IfOk result (IsAnswerTo found) }
{
    match found {
        Found::OfSeason { dossier, verdict } => season_answer(alloc, &dossier, verdict),
        Found::OfSpecial {
            dossier: _dossier,
            rounds,
            special,
            verdict,
        } => special_answer(alloc, rounds, &special, verdict),
    }
}

/// Returns the answer that tells the verdict on a season.
fn season_answer(alloc: Global, dossier: &Dossier, verdict: Verdict) -> Result<Audited, OutOfMemory>
    ensures { IfOk result (TellsFound verdict (verdict_line dossier.now.season.matrix verdict)) }
{
    let line = verdict_text(alloc, &dossier.season.matrix, verdict)?;
    Ok(answer_by(verdict, line))
}

/// Returns the answer that tells the verdict on a special round, behind so many sound rounds.
fn special_answer(
    alloc: Global,
    rounds: u16,
    special: &Dossier,
    verdict: Verdict,
) -> Result<Audited, OutOfMemory>
    ensures { IfOk result (TellsFound verdict
        (special_verdict_line special.now.season.matrix rounds verdict)) }
{
    let line = special_verdict_text(alloc, &special.season.matrix, rounds, verdict)?;
    Ok(answer_by(verdict, line))
}

/// Returns the answer that tells a verdict by this line.
fn answer_by(verdict: Verdict, line: Text) -> Audited
    ensures { TellsFound verdict line result }
{
    match verdict {
        Verdict::Sound { .. } => Audited::Sound(line),
        Verdict::Broken { .. } => Audited::Broken(line),
    }
}
