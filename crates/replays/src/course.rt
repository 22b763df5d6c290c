// Kept records are replayed, window after window.
ghost use Rattle.std.specs.Prelude.{◌≡◌, ◌<◌, ◌+◌, ℕ, [], None, IfOk, IfErr, OnOk, length};
ghost use Rattle.office_moves.specs.Stands.{AreRecordsOf, published_seat, seat_in_finals};
ghost use Rattle.office_moves.specs.State.{opening};
ghost use Rattle.replays.specs.Acts.{kept_acts, window_acts};
ghost use Rattle.replays.specs.Counted.{AreCounted, Follow, counted};
ghost use Rattle.replays.specs.Differences.{seat_along};
ghost use Rattle.replays.specs.Faults.{IsFaultOfWindow, IsReplayFault, StopsInWindow};
ghost use Rattle.replays.specs.Replay.{AreAllotsOf, IsReplayed, Pass, WindowPasses};
ghost use Rattle.replays.specs.Steps.{IsDifference};

use crate::compare::{compare, seats_in};
use crate::cut::replay_cut;
use crate::fault::ReplayFault;
use crate::later::{later_round, later_window};
use crate::rows::replay_rows;
use kept_rows::Kept;
use office_base::{OutOfMemory, Seat};
use proceedings::Proceedings;
use season_facts::says_what_is_sound;
use std::alloc::Global;

/// Nobody has a seat.
fn nobodys_seats(alloc: Global, book: &Proceedings) -> Result<Vec<Option<Seat>>, OutOfMemory>
    ensures full { IfOk result (λ seats. length seats.items ≡ length book.now.season.people) }
    ensures seats { IfOk result (λ seats. (id : ℕ)
        → seat_along book.now.season.people seats.items id ≡ None) }
{
    Ok(vec![in alloc; None; book.season().register.people().len()]?)
}

/// The seats of the final rows of this number, along the register.
fn final_seats(
    alloc: Global,
    book: &Proceedings,
    number: u16,
) -> Result<Vec<Option<Seat>>, OutOfMemory>
    ensures full { IfOk result (λ seats. length seats.items ≡ length book.now.season.people) }
    ensures seats { IfOk result (λ seats. (id : ℕ) → seat_along book.now.season.people
        seats.items id ≡ seat_in_finals book.now.state.finals number id) }
{
    let _entries = book.entries();
    let season = book.season();
    says_what_is_sound(season);
    match book.finals() {
        Some(rows) => seats_in(alloc, &season.register, rows.as_slice(), number),
        None => nobodys_seats(alloc, book),
    }
}

/// The seats of a published round along the register, and for the number after the last round the final ones.
/// Nobody has a seat in any other.
fn published_seats(
    alloc: Global,
    book: &Proceedings,
    number: u16,
) -> Result<Vec<Option<Seat>>, OutOfMemory>
    ensures full { IfOk result (λ seats. length seats.items ≡ length book.now.season.people) }
    ensures seats { IfOk result (λ seats. (id : ℕ) → seat_along book.now.season.people
        seats.items id ≡ published_seat book.now.season book.now.state number id) }
{
    let season = book.season();
    says_what_is_sound(season);
    if number == season.rounds + 1 {
        return final_seats(alloc, book, number);
    }
    let _entries = book.entries();
    match book.round(number) {
        Some(round) => Ok(Vec::from_slice(alloc, round.seats.as_slice())?),
        None => nobodys_seats(alloc, book),
    }
}

/// The kept seats of a round are the published ones, or this is the first difference.
fn compare_round(
    alloc: Global,
    book: &Proceedings,
    kept: &Kept,
    number: u16,
) -> Result<(), ReplayFault>
    ensures same { OnOk result (AreAllotsOf book.now.season book.now.state kept.now number) }
    ensures fault { IfErr result (λ fault.
        IsDifference book.now.season book.now.state kept.now number fault) }
{
    let computed = published_seats(alloc, book, number)?;
    let register = &book.season().register;
    let rows = kept.allots.as_slice();
    let found = compare(alloc, register, rows, number, computed.as_slice())?;
    match found {
        None => Ok(()),
        Some(difference) => Err(ReplayFault::Differs {
            round: number,
            cand: difference.cand,
            kept: difference.kept,
            computed: difference.computed,
        }),
    }
}

/// The open window is replayed, with its cut.
fn replay_window(
    alloc: Global,
    book: &mut Proceedings,
    kept: &Kept,
    window: u16,
) -> Result<(), ReplayFault>
    requires opened { window ≡ book.old.state.now }
    requires cut { window < kept.now.cuts }
    ensures passes { OnOk result
        (WindowPasses book.old.season kept.now window book.old.state book.new.state) }
    ensures now { OnOk result (book.new.state.now ≡ book.old.state.now + 1) }
    ensures season { book.new.season ≡ book.old.season }
    ensures entries { OnOk result
        (Follow (window_acts kept.now window) book.old.entries book.new.entries) }
    ensures fault { IfErr result (λ fault.
        IsFaultOfWindow book.old.season kept.now window book.old.state fault) }
{
    let _cuts = kept.cuts;
    replay_rows(book, kept, window)?;
    replay_cut(alloc, book)?;
    compare_round(alloc, book, kept, window + 1)?;
    Ok(())
}

/// All windows are replayed up to the one after the last cut.
fn replay_windows(alloc: Global, book: &mut Proceedings, kept: &Kept) -> Result<(), ReplayFault>
    requires { book.old.state ≡ opening }
    ensures passes { OnOk result
        (Pass book.old.season kept.now (kept.now.cuts + 1) book.new.state) }
    ensures now { OnOk result (book.new.state.now ≡ kept.now.cuts) }
    ensures season { book.new.season ≡ book.old.season }
    ensures entries { OnOk result (Follow (kept_acts kept.now) book.old.entries book.new.entries) }
    ensures fault { IfErr result (λ fault. StopsInWindow book.old.season kept.now fault) }
{
    for window in 0..kept.cuts {
        replay_window(alloc, book, kept, window)?;
    }
    replay_rows(book, kept, kept.cuts)?;
    Ok(())
}

/// Nothing is kept of later windows, nor of rounds that no counted cut publishes.
fn check_later(alloc: Global, book: &mut Proceedings, kept: &Kept) -> Result<(), ReplayFault>
    requires passes { Pass book.old.season kept.now (kept.now.cuts + 1) book.old.state }
    requires now { book.old.state.now ≡ kept.now.cuts }
    ensures state { OnOk result (book.new.state ≡ book.old.state) }
    ensures entries { OnOk result (book.new.entries ≡ book.old.entries) }
    ensures season { book.new.season ≡ book.old.season }
    ensures replayed { OnOk result (IsReplayed book.old.season kept.now book.old.state) }
    ensures fault { IfErr result (λ fault. IsReplayFault book.old.season kept.now fault) }
{
    let _entries = book.entries();
    says_what_is_sound(book.season());
    if let Some(window) = later_window(kept) {
        replay_rows(book, kept, window)?;
        unreachable!("no row of a later window is accepted")
    }
    if let Some(round) = later_round(kept) {
        compare_round(alloc, book, kept, round)?;
        unreachable!("a round that is not published has no seats")
    }
    Ok(())
}

/// Replays kept records in the proceedings of their season, in which nothing is accepted yet.
/// Reports the first fault of the records, or that memory ran out. Of the proceedings only the season is then as it was.
/// The entries are what is kept, window after window its raises, its answers and its cut.
/// They are numbered 1, 2, 3 and so on.
pub fn replay(alloc: Global, book: &mut Proceedings, kept: &Kept) -> Result<(), ReplayFault>
    requires state { book.old.state ≡ opening }
    requires entries { book.old.entries ≡ [] }
    ensures season { book.new.season ≡ book.old.season }
    ensures replayed { OnOk result (IsReplayed book.old.season kept.now book.new.state) }
    ensures entries { OnOk result (book.new.entries ≡ counted (kept_acts kept.now)) }
    ensures counted { OnOk result (AreCounted book.new.entries) }
    ensures stands { OnOk result (kept.now.season ≡ book.old.season.text
        → AreRecordsOf book.old.season book.new.state kept.now) }
    ensures fault { IfErr result (λ fault. IsReplayFault book.old.season kept.now fault) }
{
    says_what_is_sound(book.season());
    replay_windows(alloc, book, kept)?;
    check_later(alloc, book, kept)?;
    Ok(())
}
