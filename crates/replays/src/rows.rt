// The rows of a window, one after another.
ghost use Rattle.std.specs.Prelude.{◌≡◌, ◌≤◌, ◌+◌, ◌∷◌, [], ℕ, true, List, Ok, IfOk, IfErr, OnOk, map};
ghost use Rattle.office_moves.specs.declared.moves.Act.{Act};
ghost use Rattle.office_moves.specs.declared.moves.Act.TheVariants.{Answer, Raise};
ghost use Rattle.proceedings.specs.Proceeding.{last_of};
ghost use Rattle.office_moves.specs.declared.moves.Entry.{Entry as AnyEntry};
ghost use Rattle.replays.specs.Acts.{acts_in, row_acts};
ghost use Rattle.replays.specs.Counted.{Follow};
ghost use Rattle.replays.specs.Faults.{IsStrayRow, StopsAt};
ghost use Rattle.replays.specs.Replay.{RowsPass, rows_replayed, takes, window_of, with_act};
ghost use Rattle.replays.specs.Steps.{IsRefusedRow};
ghost use Rattle.replays.specs.declared.fault.ReplayFault.{ReplayFault as AnyFault};
ghost use Rattle.replays.specs.declared.fault.ReplayFault.TheVariants.{Stray, StrayRaise};

use crate::fault::ReplayFault;
use kept_rows::{AnswerRow, Kept, RaiseRow};
use office_asks::{Ask, By, Request};
use office_base::OutOfMemory;
use office_moves::Decision;
use proceedings::Proceedings;

/// Reserves room for one entry and for the withdrawals of all who are still in. Returns the number of the entry.
pub(crate) fn next_entry(book: &mut Proceedings) -> Result<u64, OutOfMemory>
    ensures number { IfOk result (λ number. number ≡ last_of book.new.entries + 1) }
    ensures season { book.new.season ≡ book.old.season }
    ensures state { book.new.state ≡ book.old.state }
    ensures entries { book.new.entries ≡ book.old.entries }
    ensures room { OnOk result (book.new.still + 1 ≤ book.new.room) }
    ensures raise_room { OnOk result (1 ≤ book.new.raise_room) }
{
    let Some(number) = book.last_number().checked_add(1) else {
        return Err(OutOfMemory);
    };
    let Some(wanted) = book.still_in().checked_add(1) else {
        return Err(OutOfMemory);
    };
    book.reserve(wanted)?;
    Ok(number)
}

/// A row of a kept table.
pub(crate) trait KeptRow: Copy {
    /// What the row says was accepted.
    ghost act: { Self → Act };

    /// The fault of a row at a place of its table.
    ghost stray: { ℕ → AnyFault };

    /// The window of the row.
    fn window(self) -> u16
        ensures { result ≡ window_of (act self) };

    /// The row at a place of its table is accepted, or it is a stray one.
    fn take(self, book: &mut Proceedings, place: u64) -> Result<(), ReplayFault>
        ensures takes { OnOk result (takes book.old.season book.old.state (act self) ≡ true) }
        ensures state { OnOk result (book.new.state ≡ with_act book.old.state (act self)) }
        ensures season { book.new.season ≡ book.old.season }
        ensures entries { OnOk result (Follow (act self ∷ []) book.old.entries book.new.entries) }
        ensures fault { IfErr result (λ fault.
            IsRefusedRow book.old.season book.old.state (act self) stray place fault) };
}

impl KeptRow for AnswerRow {
    ghost act = { λ row. Answer row };

    ghost stray = { λ place. Stray place };

    fn window(self) -> u16 {
        self.window
    }

    fn take(self, book: &mut Proceedings, place: u64) -> Result<(), ReplayFault> {
        let number = next_entry(book)?;
        let request = Request {
            by: By::Candidate(self.cand),
            ask: Ask::Answer {
                cand: self.cand,
                window: self.window,
                turn: self.turn,
                choice: self.choice,
            },
        };
        let (decision, at) = book.decide(&request);
        match decision {
            Decision::Note(_) => {
                book.note(number, at, self);
                Ok(())
            }
            _ => Err(ReplayFault::Stray { row: place }),
        }
    }
}

impl KeptRow for RaiseRow {
    ghost act = { λ row. Raise row };

    ghost stray = { λ place. StrayRaise place };

    fn window(self) -> u16 {
        self.window
    }

    fn take(self, book: &mut Proceedings, place: u64) -> Result<(), ReplayFault> {
        let number = next_entry(book)?;
        let matrix = &book.season().matrix;
        if self.prog.0 >= matrix.count() {
            return Err(ReplayFault::StrayRaise { row: place });
        }
        let request = Request {
            by: By::Clerk,
            ask: Ask::Raise {
                window: self.window,
                prog: matrix.code(self.prog),
                step: self.step,
                seats: self.seats,
            },
        };
        match book.decide(&request).0 {
            Decision::Lift(_) => {
                book.lift(number, self);
                Ok(())
            }
            _ => Err(ReplayFault::StrayRaise { row: place }),
        }
    }
}

/// The row at a place of its table is accepted, where it is of the window.
#[tactic(auto, using(crate::proofs::Follows::follow_own, crate::proofs::Follows::follow_past))]
fn pass_row<R: KeptRow>(
    book: &mut Proceedings,
    window: u16,
    row: R,
    place: u64,
) -> Result<(), ReplayFault>
    ensures on { OnOk result ((rest : List Act)
        → rows_replayed book.old.season window place (R.act row ∷ rest) book.old.state
        ≡ rows_replayed book.old.season window (place + 1) rest book.new.state) }
    ensures season { book.new.season ≡ book.old.season }
    ensures entries { OnOk result ((rest : List Act) (new : List AnyEntry)
        → Follow (acts_in window rest) book.new.entries new
        → Follow (acts_in window (R.act row ∷ rest)) book.old.entries new) }
    ensures fault { IfErr result (λ fault. (rest : List Act) → StopsAt R.stray
        (rows_replayed book.old.season window place (R.act row ∷ rest) book.old.state) fault) }
{
    if row.window() != window {
        return Ok(());
    }
    row.take(book, place)
}

/// The rows of a window are accepted one after another, up to the first stray one.
fn replay_table<R: KeptRow>(
    book: &mut Proceedings,
    window: u16,
    rows: &[R],
) -> Result<(), ReplayFault>
    ensures replayed { OnOk result (rows_replayed book.old.season window 1
        (map R.act rows.now) book.old.state ≡ Ok book.new.state) }
    ensures season { book.new.season ≡ book.old.season }
    ensures entries { OnOk result
        (Follow (acts_in window (map R.act rows.now)) book.old.entries book.new.entries) }
    ensures fault { IfErr result (λ fault. StopsAt R.stray
        (rows_replayed book.old.season window 1 (map R.act rows.now) book.old.state) fault) }
{
    for (at, row) in rows.iter().enumerate() {
        pass_row(book, window, *row, at as u64 + 1)?;
    }
    Ok(())
}

/// The rows of a window are accepted: its raises, and then its answers.
#[tactic(auto, using(crate::proofs::RowLemmas::raise_stops, crate::proofs::RowLemmas::answer_stops, crate::proofs::Follows::follow_rows))]
pub(crate) fn replay_rows(
    book: &mut Proceedings,
    kept: &Kept,
    window: u16,
) -> Result<(), ReplayFault>
    ensures passed { OnOk result
        (RowsPass book.old.season kept.now window book.old.state book.new.state) }
    ensures season { book.new.season ≡ book.old.season }
    ensures entries { OnOk result
        (Follow (row_acts kept.now window) book.old.entries book.new.entries) }
    ensures fault { IfErr result (λ fault.
        IsStrayRow book.old.season kept.now window book.old.state fault) }
{
    replay_table(book, window, kept.raises.as_slice())?;
    replay_table(book, window, kept.answers.as_slice())?;
    Ok(())
}
