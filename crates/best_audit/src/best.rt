// The second verdict on a dossier.
ghost use Rattle.std.specs.Prelude.{◌<◌, ◌+◌, IfOk, OnOk, length};
ghost use Rattle.season_facts.specs.Season.{facts_of};
ghost use Rattle.audit_rules.specs.Fair.{AreFairRounds};
ghost use Rattle.audit_rules.specs.Replay.{before};
ghost use Rattle.season_audit.specs.Audit.{AllHold, IsUpTo, papers_in};
ghost use Rattle.best_audit.specs.Best.{IsBestVerdict};

use crate::cut::gain_at;
use crate::verdict::BestVerdict;
use dossier_file::Dossier;
use office_base::OutOfMemory;
use season_audit::Auditor;
use std::alloc::Global;

/// Takes the request at this place of a script in which no clause is broken, and so reaches the state before the next one.
/// Fails only when memory runs out.
pub fn take_next(
    alloc: Global,
    dossier: &Dossier,
    auditor: &mut Auditor,
    at: usize,
) -> Result<(), OutOfMemory>
    requires within { at < length dossier.now.script }
    requires upto { IsUpTo (facts_of dossier.now.season) (before (facts_of dossier.now.season)
        dossier.now.script (papers_in dossier.now) at) auditor.old }
    requires sound { AllHold (facts_of dossier.now.season)
        dossier.now.script (papers_in dossier.now) }
    ensures { OnOk result (IsUpTo (facts_of dossier.now.season) (before (facts_of
        dossier.now.season) dossier.now.script (papers_in dossier.now) (at + 1)) auditor.new) }
{
    audit_rules::laws::one_verdict();
    if auditor.take(alloc, dossier, at)?.is_some() {
        unreachable!("no clause is broken")
    }
    Ok(())
}

/// Returns the second verdict on a dossier that `audit` found sound: `Best` if and only if every published round is the best one on what everybody
/// sought at its cut. Otherwise it names the first round that is not, and the first candidate of the register whom the best round gives a better
/// place. It makes each round again with the engine of the office. It fails only when memory runs out.
pub fn best_rounds(alloc: Global, dossier: &Dossier) -> Result<BestVerdict, OutOfMemory>
    requires sound { AllHold (facts_of dossier.now.season)
        dossier.now.script (papers_in dossier.now) }
    requires fair { AreFairRounds (facts_of dossier.now.season)
        dossier.now.script (papers_in dossier.now) }
    ensures { IfOk result
        (IsBestVerdict (facts_of dossier.now.season) dossier.now.script (papers_in dossier.now)) }
{
    let mut auditor = Auditor::begin(alloc, &dossier.season)?;
    for at in 0..dossier.script.len() {
        let round = auditor.window + 1;
        if let Some(cand) = gain_at(alloc, dossier, &auditor, at)? {
            return Ok(BestVerdict::NotBest { round, cand });
        }
        take_next(alloc, dossier, &mut auditor, at)?;
    }
    Ok(BestVerdict::Best)
}
