// Whether the final admissions in the papers are those of the last round.
ghost use Rattle.std.specs.Prelude.{◌≡◌, ◌↔◌, IsTrue};
ghost use Rattle.office_moves.specs.Moves.{final_rows};
ghost use Rattle.season_facts.specs.Season.{facts_of};
ghost use Rattle.office_moves.specs.State.{State};
ghost use Rattle.audit_rules.specs.Stands.{stands_along};

use crate::stand::Stand;
use kept_rows::AllotRow;
use office_base::{CandId, Seat};
use season_file::Season;

/// Whether the row is this one.
fn is_row(row: AllotRow, round: u16, cand: CandId, seat: Seat) -> bool
    ensures { IsTrue result
        ↔ (row ≡ record { round = round; cand = cand; prog = seat.prog; step = seat.step }) }
{
    row == AllotRow {
        round,
        cand,
        prog: seat.prog,
        step: seat.step,
    }
}

/// Returns whether the rows are those of the candidates who keep a seat after the last window, in the order of the register.
/// Their round is one more than the rounds of the season. Allocates nothing.
pub fn are_final(season: &Season, stands: &[Stand], rows: &[AllotRow]) -> bool
    ghost state: { State }
    requires { stands.now ≡ stands_along (facts_of season.now) state }
    ensures { IsTrue result ↔ (rows.now ≡ final_rows (facts_of season.now) state) }
{
    let number = season.rounds + 1;
    let mut next = 0;
    for (k, person) in season.register.people().iter().enumerate() {
        let stand = &stands[k];
        if !stand.standing.holds() {
            continue;
        }
        let Some(seat) = stand.seat else {
            continue;
        };
        if next == rows.len() {
            return false;
        }
        if !is_row(rows[next], number, person.id, seat) {
            return false;
        }
        next += 1;
    }
    next == rows.len()
}
