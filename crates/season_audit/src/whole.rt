// The audit of a dossier.
ghost use Rattle.std.specs.Prelude.{◌≡◌, ◌≤◌, ◌+◌, ℕ, IfOk, List, length, option_map};
ghost use Rattle.office_asks.specs.declared.ask.Request.{Request};
ghost use Rattle.office_moves.specs.Facts.{SeasonFacts};
ghost use Rattle.season_facts.specs.Season.{facts_of};
ghost use Rattle.audit_rules.specs.Fair.{AreFairRounds};
ghost use Rattle.audit_rules.specs.Papers.{Papers};
ghost use Rattle.audit_rules.specs.Verdict.{IsVerdict};
ghost use Rattle.season_audit.specs.Audit.{ScriptComesTo, papers_in};

use crate::auditor::Auditor;
use audit_rules::{Fault, Verdict};
use dossier_file::Dossier;
use office_base::OutOfMemory;
use season_facts::says_what_is_sound;
use std::alloc::Global;

/// Returns the first clause that a cut breaks, with the number of the round that the cut publishes.
fn first_broken(alloc: Global, dossier: &Dossier) -> Result<Option<(u16, Fault)>, OutOfMemory>
    ensures { IfOk result
        (ScriptComesTo (facts_of dossier.now.season) dossier.now.script (papers_in dossier.now)) }
{
    let mut auditor = Auditor::begin(alloc, &dossier.season)?;
    for at in 0..dossier.script.len() {
        let number = auditor.window + 1;
        if let Some(fault) = auditor.take(alloc, dossier, at)? {
            return Ok(Some((number, fault)));
        }
    }
    Ok(None)
}

/// Returns the verdict by the first clause that is broken, of papers with texts of this many rounds.
fn verdict_of(rounds: u16, broken: Option<(u16, Fault)>) -> Verdict
    ensures { (facts : SeasonFacts) (script : List Request) (papers : Papers)
        → rounds ≡ length papers.rounds → ScriptComesTo facts script papers broken
        → IsVerdict facts script papers result }
{
    let Some((round, fault)) = broken else {
        return Verdict::Sound { rounds };
    };
    Verdict::Broken {
        round,
        clause: fault.clause,
        prog: fault.prog,
        cand: fault.cand,
    }
}

/// Returns the verdict on a dossier: sound if and only if its papers break no clause, otherwise the first clause that is broken.
/// Rounds are taken in rising order. In each the candidates' seats come first, then the lists against the round's text, and
/// then each list. After the last window the final admissions follow. If the verdict is sound, every round is fair and nobody
/// falls. It fails only when memory runs out.
///
/// Its cost is linear in the dossier, but for a sort of each programme's applicants by merit and for a place among the sorted
/// raises of its window for each raise. Of what the office runs, it calls only the bookkeeping of raises.
pub fn audit(alloc: Global, dossier: &Dossier) -> Result<Verdict, OutOfMemory>
    ensures verdict { IfOk result
        (IsVerdict (facts_of dossier.now.season) dossier.now.script (papers_in dossier.now)) }
    ensures fair { IfOk result (λ verdict. (rounds : ℕ) → verdict ≡ Verdict.Sound rounds
        → AreFairRounds (facts_of dossier.now.season) dossier.now.script (papers_in dossier.now)) }
{
    says_what_is_sound(&dossier.season);
    audit_rules::laws::sound_is_fair();
    let broken = first_broken(alloc, dossier)?;
    Ok(verdict_of(dossier.rounds.len() as u16, broken))
}
