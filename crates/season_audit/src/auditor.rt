// The replay of a season from its papers.
ghost use Rattle.std.specs.Prelude.{◌≡◌, ◌↔◌, ◌<◌, ◌≤◌, IfOk, IfSome, IsTrue, OnOk, Some, length, slice_get};
ghost use Rattle.office_asks.specs.declared.ask.Request.{Request as AnyRequest};
ghost use Rattle.office_moves.specs.Decided.{decide_answer, decide_cut, decide_raise_of, decided};
ghost use Rattle.office_moves.specs.Facts.{find_programme};
ghost use Rattle.season_facts.specs.Season.{facts_of};
ghost use Rattle.office_moves.specs.State.{State, opening, view_of};
ghost use Rattle.office_moves.specs.declared.decide.Decision.TheVariants.{Finish, Publish};
ghost use Rattle.audit_rules.specs.Papers.{Papers};
ghost use Rattle.audit_rules.specs.AtCut.{Setting};
ghost use Rattle.season_audit.specs.Audit.{ComesTo, IsUpTo, Passes, StandAfter, papers_in};
ghost use Rattle.season_audit.specs.Deeds.{Does, IsOfMatrix};
ghost use Rattle.audit_rules.specs.Cut.{EndHolds};
ghost use Rattle.audit_rules.specs.Stands.{stands_along};

use crate::texts::{lists_after, rows_after};
use audit_rules::{Fault, Stand, are_final, cut_fault, lifts, seats_told, stands_after};
use dossier_file::Dossier;
use kept_rows::{AnswerRow, RaiseRow};
use list_audit::Clause;
use office_asks::{Ask, By, Request};
use office_base::{Code, OutOfMemory, ProgId};
use raised_seats::RaisedSeats;
use season_facts::says_what_is_sound;
use season_file::Season;
use std::alloc::Global;

/// Notes an answer of the open window, if the rules accept it. Then the answer gives the candidate's standing.
fn note(season: &Season, stands: &mut [Stand], by: By, row: AnswerRow)
    ghost state: { State }
    requires stands { stands.old ≡ stands_along (facts_of season.now) state }
    requires now { row.window ≡ state.now }
    requires within { row.window ≤ (facts_of season.now).rounds }
    ensures { StandAfter (facts_of season.now) state row
        (decide_answer (facts_of season.now) (view_of state row.cand.0) by row) stands.new }
{
    let _ = season.register.people();
    let Some(at) = season.register.position(row.cand) else {
        return;
    };
    let at = at as usize;
    if !stands[at].notes(by, row) {
        return;
    }
    stands[at] = stands[at].answered(row);
}

/// Returns whether the final admissions are those of the last round.
fn is_right(dossier: &Dossier, stands: &[Stand]) -> bool
    ghost state: { State }
    requires { stands.now ≡ stands_along (facts_of dossier.now.season) state }
    ensures { IsTrue result ↔ EndHolds (facts_of dossier.now.season) (papers_in dossier.now) state }
{
    match &dossier.last {
        Some(read) => are_final(&dossier.season, stands, read.rows.as_slice()),
        None => false,
    }
}

/// What a request may do: give an answer, cut a window, or raise seats of a programme of the matrix. A question does nothing,
/// and so does a raise of a programme that the matrix does not have.
#[derive(Clone, Copy)]
enum Deed {
    Answer(AnswerRow),
    Cut(u16),
    Raise(RaiseRow),
    Nothing,
}

/// Returns the programme of a code. None if and only if no programme has it.
fn find(season: &Season, code: Code) -> Option<ProgId>
    ensures found { result ≡ find_programme (facts_of season.now) code }
    ensures within { IfSome result (λ prog.
        prog.0 < length (facts_of season.now).matrix.programmes) }
{
    season.matrix.find(code)
}

/// Returns what this request may do.
fn deed_of(season: &Season, request: &Request) -> Deed
    ensures known { IsOfMatrix (facts_of season.now) result }
    ensures does { Does (facts_of season.now) request.now request.now.by result }
{
    match request.ask {
        Ask::Answer {
            cand,
            window,
            turn,
            choice,
        } => Deed::Answer(AnswerRow {
            window,
            cand,
            turn,
            choice,
        }),
        Ask::Cut { window } => Deed::Cut(window),
        Ask::Raise {
            window,
            prog,
            step,
            seats,
        } => match find(season, prog) {
            Some(prog) => Deed::Raise(RaiseRow {
                window,
                prog,
                step,
                seats,
            }),
            None => Deed::Nothing,
        },
        _ => Deed::Nothing,
    }
}

/// A replay: the matrix with what was raised, the standing of each candidate, and the open window.
#[derive(Drop)]
pub struct Auditor {
    pub raised: RaisedSeats,
    pub stands: Vec<Stand>,
    pub window: u16,
}

impl Auditor {
    /// Begins the replay of a season, before its first request.
    pub fn begin(alloc: Global, season: &Season) -> Result<Auditor, OutOfMemory>
        ensures { IfOk result (λ auditor. IsUpTo (facts_of season.now) opening auditor) }
    {
        says_what_is_sound(season);
        let matrix = season.matrix.copy(alloc)?;
        let stands = vec![in alloc; Stand::first(); season.register.people().len()]?;
        Ok(Auditor {
            raised: RaisedSeats::new(alloc, matrix),
            stands,
            window: 0,
        })
    }

    /// Takes an answer, if it is noted.
    fn answer(&mut self, season: &Season, by: By, row: AnswerRow)
        ghost state: { State }
        requires { IsUpTo (facts_of season.now) state self.old }
        ensures { (papers : Papers) → Passes (facts_of season.now) papers state
            (decide_answer (facts_of season.now) (view_of state row.cand.0) by row) self.new }
    {
        seat_matrix::laws::one_step_changes();
        if row.window != self.window {
            return;
        }
        if row.window > season.rounds {
            return;
        }
        note(season, self.stands.as_mut_slice(), by, row);
    }

    /// Takes a raise of a programme of the matrix, if it is accepted. It does not walk the matrix, and moves no raises but those of its window.
    fn raise(&mut self, season: &Season, by: By, row: RaiseRow) -> Result<(), OutOfMemory>
        ghost state: { State }
        requires upto { IsUpTo (facts_of season.now) state self.old }
        requires known { row.prog.0 < length (facts_of season.now).matrix.programmes }
        ensures { OnOk result ((papers : Papers) → Passes (facts_of season.now) papers
            state (decide_raise_of (facts_of season.now) state by row) self.new) }
    {
        seat_matrix::laws::one_step_changes();
        let looks = self.raised.looks(self.window, season.rounds, row);
        if !lifts(&looks, by, row) {
            return Ok(());
        }
        self.raised.reserve()?;
        self.raised.raise(row);
        Ok(())
    }

    /// Takes the cut that publishes a round, if its texts break no clause.
    fn publish(&mut self, alloc: Global, dossier: &Dossier) -> Result<Option<Fault>, OutOfMemory>
        ghost at: { Setting }
        requires papers { at.papers ≡ papers_in dossier.now }
        requires upto { IsUpTo (facts_of dossier.now.season) at.state self.old }
        requires early { at.state.now < (facts_of dossier.now.season).rounds }
        ensures { IfOk result
            (ComesTo (facts_of dossier.now.season) at.papers at.state Publish self.new) }
    {
        let season = &dossier.season;
        let rows = rows_after(dossier, self.window);
        let lists = lists_after(dossier, season.matrix.count(), self.window);
        let seats = seats_told(alloc, &season.register, rows)?;
        let matrix = self.raised.matrix();
        let fault = cut_fault(alloc, season, matrix, &self.stands, &seats, lists)?;
        if fault.is_some() {
            return Ok(fault);
        }
        let stands = stands_after(alloc, season, matrix, &self.stands, &seats)?;
        self.stands = stands;
        self.window += 1;
        Ok(None)
    }

    /// Takes the last cut, if the final admissions are right.
    fn finish(&mut self, dossier: &Dossier) -> Option<Fault>
        ghost state: { State }
        requires upto { IsUpTo (facts_of dossier.now.season) state self.old }
        requires last { state.now ≡ (facts_of dossier.now.season).rounds }
        ensures { ComesTo (facts_of dossier.now.season)
            (papers_in dossier.now) state Finish self.new result }
    {
        if !is_right(dossier, &self.stands) {
            return Some(Fault {
                clause: Clause::FinalDiffers,
                prog: None,
                cand: None,
            });
        }
        self.window += 1;
        None
    }

    /// Takes a cut, if it is accepted and breaks no clause.
    fn cut(
        &mut self,
        alloc: Global,
        dossier: &Dossier,
        by: By,
        window: u16,
    ) -> Result<Option<Fault>, OutOfMemory>
        ghost state: { State }
        requires { IsUpTo (facts_of dossier.now.season) state self.old }
        ensures { IfOk result (ComesTo (facts_of dossier.now.season) (papers_in dossier.now)
            state (decide_cut (facts_of dossier.now.season) state by window) self.new) }
    {
        let rounds = dossier.season.rounds;
        if by != By::Clerk {
            return Ok(None);
        }
        if window != self.window {
            return Ok(None);
        }
        if window > rounds {
            return Ok(None);
        }
        if window == rounds {
            return Ok(self.finish(dossier));
        }
        self.publish(alloc, dossier)
    }

    /// Takes the request at this place of the script: an answer that is noted, a raise that is accepted, a cut that breaks no clause.
    /// Returns the first clause that a cut breaks, after which the replay goes no further. It fails only when memory runs out.
    pub fn take(
        &mut self,
        alloc: Global,
        dossier: &Dossier,
        at: usize,
    ) -> Result<Option<Fault>, OutOfMemory>
        ghost state: { State }
        requires within { at < length dossier.now.script }
        requires upto { IsUpTo (facts_of dossier.now.season) state self.old }
        ensures { IfOk result (λ fault. (request : AnyRequest) → slice_get dossier.now.script at
            ≡ Some request → ComesTo (facts_of dossier.now.season) (papers_in dossier.now)
            state (decided (facts_of dossier.now.season) state request) self.new fault) }
    {
        let request = &dossier.script.as_slice()[at];
        let by = request.by;
        match deed_of(&dossier.season, request) {
            Deed::Answer(row) => {
                self.answer(&dossier.season, by, row);
                Ok(None)
            }
            Deed::Cut(window) => self.cut(alloc, dossier, by, window),
            Deed::Raise(row) => {
                self.raise(&dossier.season, by, row)?;
                Ok(None)
            }
            Deed::Nothing => Ok(None),
        }
    }
}
