// The papers of a special round, read over what a sound season's papers leave.
ghost use Rattle.std.specs.Prelude.{◌≡◌, ◌≤◌, IfOk, IfErr, length};
ghost use Rattle.office_base.specs.Limits.{most_bundle_bytes};
ghost use Rattle.season_facts.specs.Season.{facts_of};
ghost use Rattle.season_audit.specs.Audit.{AllHold, IsUpTo, papers_in};
ghost use Rattle.special_audit.specs.Special.{HasSpecialFault, IsSpecialOf, Leaves, lists_error, one_cut, state_after, texts_error};
ghost use Rattle.special_round.specs.Season.{IsSpecialFault};
ghost use Rattle.special_audit.specs.declared.special.SpecialError.TheVariants.{OutOfMemory as NoMemory};

use best_audit::take_next;
use dossier_file::Dossier;
use office_asks::{Ask, By, Request};
use office_base::OutOfMemory;
use request_rows::Script;
use season_audit::Auditor;
use season_file::Season;
use special_round::{SpecialFault, left_season};
use std::alloc::Global;
use text_readers::TextFault;

/// Says why the papers of a special round were not read. Nothing is left behind.
#[derive(Clone, Copy, Debug, PartialEq, Eq, thiserror::Error)]
pub enum SpecialError {
    /// The season is not over, or the lists have this first fault.
    #[error("{0}")]
    Lists(SpecialFault),
    /// The line of the texts, from 1, up to which they begin no such texts as are due, or one past their end where they begin some.
    #[error("special line {line}")]
    Line { line: u32 },
    /// There was no memory.
    #[error("out of memory")]
    OutOfMemory,
}

impl From<OutOfMemory> for SpecialError {
    ghost from_gives = { λ _ fault. fault ≡ NoMemory };

    fn from(_: OutOfMemory) -> Self {
        SpecialError::OutOfMemory
    }
}

/// Takes all requests of a dossier in which no clause is broken.
fn replayed(alloc: Global, dossier: &Dossier) -> Result<Auditor, OutOfMemory>
    requires sound { AllHold (facts_of dossier.now.season)
        dossier.now.script (papers_in dossier.now) }
    ensures { IfOk result (IsUpTo (facts_of dossier.now.season) (state_after dossier.now)) }
{
    let mut auditor = Auditor::begin(alloc, &dossier.season)?;
    for at in 0..dossier.script.len() {
        take_next(alloc, dossier, &mut auditor, at)?;
    }
    Ok(auditor)
}

/// Returns the season that the final admissions of a dossier leave, with these lists, or why there is none.
fn left_by(
    alloc: Global,
    dossier: &Dossier,
    auditor: &Auditor,
    lists: &[u8],
) -> Result<Season, SpecialFault>
    requires upto { IsUpTo (facts_of dossier.now.season) (state_after dossier.now) auditor.now }
    requires sound { AllHold (facts_of dossier.now.season)
        dossier.now.script (papers_in dossier.now) }
    ensures season { IfOk result (Leaves dossier.now lists.now) }
    ensures fault { IfErr result (IsSpecialFault (facts_of dossier.now.season)
        (state_after dossier.now) lists.now) }
{
    seat_matrix::laws::one_step_changes();
    if auditor.window <= dossier.season.rounds {
        return Err(SpecialFault::NotFinal {
            now: auditor.window,
        });
    }
    let Some(read) = &dossier.last else {
        unreachable!("the last cut gives the final admissions")
    };
    let table = auditor.raised.matrix();
    left_season(alloc, &dossier.season, table, read.rows.as_slice(), lists)
}

/// Returns the requests of a special round: the clerk cuts its one window.
fn one_cut(alloc: Global) -> Result<Script, OutOfMemory>
    ensures { IfOk result (λ script. script ≡ one_cut) }
{
    let mut script = Script::new(alloc);
    script.push(Request {
        by: By::Clerk,
        ask: Ask::Cut { window: 0 },
    })?;
    Ok(script)
}

/// Returns the fault of lists, or of memory.
fn lists_error(fault: SpecialFault) -> SpecialError
    ensures { result ≡ lists_error fault }
{
    match fault {
        SpecialFault::OutOfMemory => SpecialError::OutOfMemory,
        _ => SpecialError::Lists(fault),
    }
}

/// Returns the fault of texts, or of memory.
fn texts_error(fault: TextFault) -> SpecialError
    ensures { result ≡ texts_error fault }
{
    match fault {
        TextFault::Line(line) => SpecialError::Line { line },
        TextFault::OutOfMemory => SpecialError::OutOfMemory,
    }
}

/// Returns the papers of the special round behind a dossier of which no clause is broken, as a dossier of the season that the
/// final admissions left of the raised matrix; or the first fault of the lists, and then of the texts.
pub fn special_dossier(
    alloc: Global,
    dossier: &Dossier,
    lists: &[u8],
    published: &[u8],
) -> Result<Dossier, SpecialError>
    requires sound { AllHold (facts_of dossier.now.season)
        dossier.now.script (papers_in dossier.now) }
    requires short { length published.now ≤ most_bundle_bytes }
    ensures value { IfOk result (IsSpecialOf dossier.now lists.now published.now) }
    ensures fault { IfErr result (HasSpecialFault dossier.now lists.now published.now) }
{
    let auditor = replayed(alloc, dossier)?;
    let season = match left_by(alloc, dossier, &auditor, lists) {
        Ok(season) => season,
        Err(fault) => return Err(lists_error(fault)),
    };
    let script = one_cut(alloc)?;
    match Dossier::of_texts(alloc, season, script, published) {
        Ok(special) => Ok(special),
        Err(fault) => Err(texts_error(fault)),
    }
}
