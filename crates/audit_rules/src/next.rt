// How candidates stand after a cut.
ghost use Rattle.std.specs.Prelude.{◌≡◌, IfOk, length};
ghost use Rattle.season_facts.specs.Season.{facts_of};
ghost use Rattle.office_moves.specs.State.{with_round};
ghost use Rattle.audit_rules.specs.Replay.{round_of};
ghost use Rattle.audit_rules.specs.AtCut.{IsAtCut, Setting};
ghost use Rattle.audit_rules.specs.Stands.{stands_along};

use crate::stand::Stand;
use office_base::{OutOfMemory, Seat};
use season_file::Season;
use seat_matrix::Matrix;
use std::alloc::Global;

/// How all candidates stand after the cut whose round gives these seats.
pub fn stands_after(
    alloc: Global,
    season: &Season,
    matrix: &Matrix,
    stands: &[Stand],
    seats: &[Option<Seat>],
) -> Result<Vec<Stand>, OutOfMemory>
    ghost at: { Setting }
    requires { IsAtCut (facts_of season.now) at matrix.now stands.now seats.now }
    ensures { IfOk result (λ next. next.items ≡ stands_along (facts_of season.now)
        (with_round at.state (round_of (facts_of season.now) at.papers at.state))) }
{
    let _ = matrix;
    let mut next = Vec::with_capacity(alloc, stands.len())?;
    for (k, stand) in stands.iter().enumerate() {
        next.push(stand.cut(seats[k]))?;
    }
    Ok(next)
}
