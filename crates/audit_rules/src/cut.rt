// A cut, clause by clause.
ghost use Rattle.std.specs.Prelude.{◌≡◌, ◌<◌, ◌≤◌, IfOk, length};
ghost use Rattle.audit_rules.specs.Cut.{seekers_at};
ghost use Rattle.audit_rules.specs.Groups.{AreGroups};
ghost use Rattle.season_facts.specs.Season.{facts_of};
ghost use Rattle.audit_rules.specs.AtCut.{IsAtCut, Setting};
ghost use Rattle.audit_rules.specs.Comes.{AllListed, AreLists, CutComesTo, HoldOn, ListsComeTo};

use crate::fault::Fault;
use crate::groups::{Places, applicants, pick};
use crate::sought::{first_fallen, first_unsought};
use crate::stand::Stand;
use crate::unlisted::first_unlisted;
use list_audit::{Clause, list_fault};
use list_texts::ListRead;
use office_base::{OutOfMemory, ProgId, Seat};
use season_file::Season;
use seat_matrix::Matrix;
use std::alloc::Global;

/// The first clause that the lists of a programme break, by programmes, from the places of those who apply to each.
fn unsound_in(
    alloc: Global,
    season: &Season,
    matrix: &Matrix,
    stands: &[Stand],
    seats: &[Option<Seat>],
    lists: &[ListRead],
    groups: &[Places],
) -> Result<Option<Fault>, OutOfMemory>
    ghost at: { Setting }
    requires at { IsAtCut (facts_of season.now) at matrix.now stands.now seats.now }
    requires lists { AreLists (facts_of season.now) at lists.now }
    requires hold { HoldOn (facts_of season.now) at }
    requires listed { AllListed (facts_of season.now) at }
    requires groups { AreGroups (length (facts_of season.now).matrix.programmes)
        (seekers_at (facts_of season.now) at.state) seats.now groups.now }
    ensures { IfOk result (ListsComeTo (facts_of season.now) at) }
{
    let _ = stands;
    let _ = seats;
    round_laws::laws::choose_well();
    for p in 0..lists.len() {
        let prog = ProgId(p as u16);
        let people = pick(alloc, season.register.people(), groups[p].as_slice())?;
        let programme = &lists[p].programme;
        let fault = list_fault(alloc, matrix, season.version, prog, &people, programme)?;
        if let Some((clause, cand)) = fault {
            return Ok(Some(Fault {
                clause,
                prog: Some(prog),
                cand,
            }));
        }
    }
    Ok(None)
}

/// The first clause that the lists break: where one and the round's text differ, or in a list.
fn list_faults(
    alloc: Global,
    season: &Season,
    matrix: &Matrix,
    stands: &[Stand],
    seats: &[Option<Seat>],
    lists: &[ListRead],
) -> Result<Option<Fault>, OutOfMemory>
    ghost at: { Setting }
    requires at { IsAtCut (facts_of season.now) at matrix.now stands.now seats.now }
    requires lists { AreLists (facts_of season.now) at lists.now }
    requires hold { HoldOn (facts_of season.now) at }
    ensures { IfOk result (CutComesTo (facts_of season.now) at) }
{
    if let Some((prog, cand)) = first_unlisted(alloc, season, matrix, stands, seats, lists)? {
        return Ok(Some(Fault {
            clause: Clause::Unlisted,
            prog: Some(prog),
            cand: Some(cand),
        }));
    }
    let groups = applicants(alloc, season, matrix, stands, seats)?;
    unsound_in(alloc, season, matrix, stands, seats, lists, &groups)
}

/// Returns the first clause that a cut breaks, by the seats that the round's text gives and the lists of the programmes.
/// Fails only when memory runs out.
pub fn cut_fault(
    alloc: Global,
    season: &Season,
    matrix: &Matrix,
    stands: &[Stand],
    seats: &[Option<Seat>],
    lists: &[ListRead],
) -> Result<Option<Fault>, OutOfMemory>
    ghost at: { Setting }
    requires at { IsAtCut (facts_of season.now) at matrix.now stands.now seats.now }
    requires lists { AreLists (facts_of season.now) at lists.now }
    ensures { IfOk result (CutComesTo (facts_of season.now) at) }
{
    if let Some((prog, cand)) = first_unsought(season, matrix, stands, seats) {
        return Ok(Some(Fault {
            clause: Clause::NotSought,
            prog: Some(prog),
            cand: Some(cand),
        }));
    }
    if let Some(cand) = first_fallen(season, matrix, stands, seats) {
        return Ok(Some(Fault {
            clause: Clause::Fell,
            prog: None,
            cand: Some(cand),
        }));
    }
    list_faults(alloc, season, matrix, stands, seats, lists)
}
