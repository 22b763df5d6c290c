// The order of published seats: by round, and inside a round by candidate.
ghost use Rattle.std.specs.Prelude.{◌≡◌};
ghost use Rattle.keeper_sqlite.specs.Rising.{rise_after_key, is_above};

use kept_rows::AllotRow;
use office_base::CandId;

/// The key of a published seat.
#[derive(Clone, Copy, PartialEq, Eq)]
pub(crate) struct Key {
    pub round: u16,
    pub cand: CandId,
}

/// Returns whether the rows rise by round and candidate, and above the last key if there is one.
pub(crate) fn are_rising(last: Option<Key>, rows: &[AllotRow]) -> bool
    ensures { result ≡ rise_after_key last rows.now }
{
    let mut above = last;
    for row in rows {
        if !is_above(above, row) {
            return false;
        }
        above = Some(Key {
            round: row.round,
            cand: row.cand,
        });
    }
    true
}

fn is_above(last: Option<Key>, row: &AllotRow) -> bool
    ensures { result ≡ is_above last row.now }
{
    match last {
        None => true,
        Some(key) => {
            key.round < row.round || (key.round == row.round && key.cand.0 < row.cand.0)
        }
    }
}
