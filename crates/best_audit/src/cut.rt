// The round of a cut, made again and compared.
ghost use Rattle.std.specs.Prelude.{◌≡◌, ◌<◌, ◌↔◌, IfOk, IsTrue, Some, length, slice_get};
ghost use Rattle.office_asks.specs.declared.ask.Request.{Request as AnyRequest};
ghost use Rattle.office_moves.specs.Decided.{decided};
ghost use Rattle.office_moves.specs.Facts.{SeasonFacts};
ghost use Rattle.season_facts.specs.Season.{facts_of};
ghost use Rattle.office_moves.specs.State.{State};
ghost use Rattle.office_moves.specs.declared.decide.Decision.TheVariants.{Publish};
ghost use Rattle.season_audit.specs.Audit.{IsUpTo, papers_in};
ghost use Rattle.best_audit.specs.Compared.{GainComesTo, IsFairText, RequestComesTo, Setting};

use crate::compare::first_gain;
use crate::sought::seeks_at;
use apply_engine::plain_round;
use audit_rules::seats_told;
use dossier_file::Dossier;
use office_asks::{Ask, By, Request};
use office_base::{CandId, OutOfMemory};
use season_audit::{Auditor, rows_after};
use std::alloc::Global;

/// Makes the round of the open window again, and returns the first candidate whom it gives a better place than the text does.
fn gain_of_cut(
    alloc: Global,
    dossier: &Dossier,
    auditor: &Auditor,
) -> Result<Option<CandId>, OutOfMemory>
    ghost cut: { Setting }
    requires papers { cut.papers ≡ papers_in dossier.now }
    requires upto { IsUpTo (facts_of dossier.now.season) cut.state auditor.now }
    requires early { cut.state.now < (facts_of dossier.now.season).rounds }
    requires fair { IsFairText (facts_of dossier.now.season) cut.papers cut.state }
    ensures { IfOk result (GainComesTo (facts_of dossier.now.season) cut.papers cut.state) }
{
    let season = &dossier.season;
    let rows = rows_after(dossier, auditor.window);
    let seats = seats_told(alloc, &season.register, rows)?;
    let seeks = seeks_at(alloc, season, &auditor.stands)?;
    let number = auditor.window + 1;
    let matrix = auditor.raised.matrix();
    let round = plain_round(alloc, season, matrix, number, seeks)?;
    let (seeks, best) = (round.seeks.as_slice(), round.seats.as_slice());
    first_gain(alloc, season, matrix, seeks, best, &seats)
}

/// Returns whether a request publishes a round: it is a cut of this open window by the clerk, before the last window of so many rounds.
fn publishes(rounds: u16, window: u16, request: &Request) -> bool
    ensures { (facts : SeasonFacts) (state : State) → rounds ≡ facts.rounds → window ≡ state.now
        → IsTrue result ↔ (decided facts state request.now ≡ Publish) }
{
    match request.ask {
        Ask::Cut { window: cut } => request.by == By::Clerk && cut == window && window < rounds,
        _ => false,
    }
}

/// Returns the first candidate whom the best round gives a better place, where the request at this place of the script publishes a round that is not the
/// best one.
pub(crate) fn gain_at(
    alloc: Global,
    dossier: &Dossier,
    auditor: &Auditor,
    at: usize,
) -> Result<Option<CandId>, OutOfMemory>
    ghost cut: { Setting }
    requires within { at < length dossier.now.script }
    requires papers { cut.papers ≡ papers_in dossier.now }
    requires upto { IsUpTo (facts_of dossier.now.season) cut.state auditor.now }
    requires fair { (request : AnyRequest) → slice_get dossier.now.script at ≡ Some request
        → decided (facts_of dossier.now.season) cut.state request ≡ Publish
        → IsFairText (facts_of dossier.now.season) cut.papers cut.state }
    ensures { IfOk result (λ gain. (request : AnyRequest) → slice_get dossier.now.script at
        ≡ Some request → RequestComesTo (facts_of dossier.now.season) cut request gain) }
{
    let request = &dossier.script.as_slice()[at];
    if !publishes(dossier.season.rounds, auditor.window, request) {
        return Ok(None);
    }
    gain_of_cut(alloc, dossier, auditor)
}
