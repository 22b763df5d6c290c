// What is kept of windows and rounds that no counted cut closes.
ghost use Rattle.std.specs.Prelude.{◌≡◌, Some, None};
ghost use Rattle.replays.specs.Later.{IsLaterRound, IsLaterWindow, is_later, is_uncounted, least_by, lesser};
ghost use Rattle.replays.specs.Replay.{window_of};

use crate::rows::KeptRow;
use kept_rows::{AllotRow, Kept};

/// The smaller of a number, where there is one, and another.
fn lesser(best: Option<u16>, number: u16) -> u16
    ensures { result ≡ lesser best number }
{
    match best {
        Some(best) if best <= number => best,
        _ => number,
    }
}

/// The first window after the counted cuts that has a row of a table.
fn later_row<R: KeptRow>(rows: &[R], cuts: u16) -> Option<u16>
    ensures { result ≡ least_by (λ row. is_later cuts (window_of (R.act row)))
        (λ row. window_of (R.act row)) None rows.now }
{
    let mut best = None;
    for row in rows {
        let window = row.window();
        if window > cuts {
            best = Some(lesser(best, window));
        }
    }
    best
}

/// The first window after the counted cuts of which something is kept.
pub(crate) fn later_window(kept: &Kept) -> Option<u16>
    ensures { IsLaterWindow kept.now result }
{
    let raise = later_row(kept.raises.as_slice(), kept.cuts);
    match later_row(kept.answers.as_slice(), kept.cuts) {
        Some(answer) => Some(lesser(raise, answer)),
        None => raise,
    }
}

/// The first round that no counted cut publishes of which a seat is kept.
fn uncounted_round(rows: &[AllotRow], cuts: u16) -> Option<u16>
    ensures { result
        ≡ least_by (λ row. is_uncounted cuts row.round) (λ row. row.round) None rows.now }
{
    let mut best = None;
    for row in rows {
        if row.round == 0 || row.round > cuts {
            best = Some(lesser(best, row.round));
        }
    }
    best
}

/// The same of all that is kept.
pub(crate) fn later_round(kept: &Kept) -> Option<u16>
    ensures { IsLaterRound kept.now result }
{
    uncounted_round(kept.allots.as_slice(), kept.cuts)
}
