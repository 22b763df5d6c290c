// Whom the best round gives a better place.
ghost use Rattle.std.specs.Prelude.{◌≡◌, IfOk};
ghost use Rattle.allocations.specs.Market.{rank_of};
ghost use Rattle.season_facts.specs.Season.{facts_of};
ghost use Rattle.best_audit.specs.Compared.{AreCompared, GainComesTo, Setting};

use audit_rules::place_of;
use office_base::{CandId, OutOfMemory, ProgId, Seat};
use season_file::Season;
use seat_matrix::Matrix;
use seeks::{Seek, push_left};
use std::alloc::Global;

/// Returns how far down a list a seat is; no seat is after the whole list.
fn rank_of(list: &[ProgId], seat: Option<Seat>) -> usize
    ensures { result ≡ rank_of list.now seat }
{
    match seat {
        Some(seat) => place_of(list, seat.prog),
        None => list.len(),
    }
}

/// Returns the first candidate of the register whom the best seats give a better place of what was sought than the seats of the text do.
pub(crate) fn first_gain(
    alloc: Global,
    season: &Season,
    matrix: &Matrix,
    seeks: &[Seek],
    best: &[Option<Seat>],
    seats: &[Option<Seat>],
) -> Result<Option<CandId>, OutOfMemory>
    ghost at: { Setting }
    requires { AreCompared (facts_of season.now) at matrix.now seeks.now best.now seats.now }
    ensures { IfOk result (GainComesTo (facts_of season.now) at.papers at.state) }
{
    let mut sought = Vec::new(alloc);
    for (k, person) in season.register.people().iter().enumerate() {
        let list = season.choices.list_near(k, person.id);
        sought.clear();
        push_left(&mut sought, matrix, seeks[k], list)?;
        let left = sought.as_slice();
        if rank_of(left, best[k]) < rank_of(left, seats[k]) {
            return Ok(Some(person.id));
        }
    }
    Ok(None)
}
