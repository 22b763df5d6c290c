// The fields of a request's row.
ghost use Rattle.std.specs.Prelude.{◌≡◌};
ghost use Rattle.request_rows.specs.Requests.{answer_of, ask_of, by_of, candidate_of, is_kind, raise_of, request_of, window_of};

use office_asks::{Ask, By, Request};
use office_base::limits::{LAST_ID, LAST_TURN, LAST_WINDOW, MOST_STEP_SEATS};
use office_base::{CandId, Code};
use office_text::{read_choice, read_number, read_step};
use section_rows::Rows;

/// The candidate's number that a text spells.
fn read_candidate(text: &[u8]) -> Option<CandId>
    ensures { result ≡ candidate_of text.now }
{
    let id = read_number(text, 1, LAST_ID)?;
    Some(CandId(id))
}

/// Who asks: `clerk`, `nobody` or a candidate's number.
fn read_by(text: &[u8]) -> Option<By>
    ensures { result ≡ by_of text.now }
{
    if text == b"clerk".as_slice() {
        Some(By::Clerk)
    } else if text == b"nobody".as_slice() {
        Some(By::Nobody)
    } else {
        let id = read_candidate(text)?;
        Some(By::Candidate(id))
    }
}

/// The number of a window or of a round.
fn read_window(text: &[u8]) -> Option<u16>
    ensures { result ≡ window_of text.now }
{
    let window = read_number(text, 0, LAST_WINDOW)?;
    Some(window as u16)
}

/// What a row of the kind `answer` asks.
fn read_answer(row: &Rows<'_>) -> Option<Ask>
    ensures { result ≡ answer_of row.now.row }
{
    let cand = read_candidate(row.field(2))?;
    let window = read_window(row.field(3))?;
    let turn = read_number(row.field(4), 1, LAST_TURN)?;
    let choice = read_choice(row.field(5))?;
    Some(Ask::Answer {
        cand,
        window,
        turn: turn as u16,
        choice,
    })
}

/// What a row of the kind `raise` asks.
fn read_raise(row: &Rows<'_>) -> Option<Ask>
    ensures { result ≡ raise_of row.now.row }
{
    let window = read_window(row.field(2))?;
    let prog = Code::read(row.field(3))?;
    let step = read_step(row.field(4))?;
    let seats = read_number(row.field(5), 1, MOST_STEP_SEATS)?;
    Some(Ask::Raise {
        window,
        prog,
        step,
        seats: seats as u16,
    })
}

/// Whether a row has this first field, and so many fields.
fn is_kind(row: &Rows<'_>, name: &[u8], count: usize) -> bool
    ensures { result ≡ is_kind name.now count row.now.row }
{
    row.len() == count && row.field(0) == name
}

/// What a row asks, by its first field and the number of its fields.
fn read_ask(row: &Rows<'_>) -> Option<Ask>
    ensures { result ≡ ask_of row.now.row }
{
    if is_kind(row, b"answer".as_slice(), 6) {
        return read_answer(row);
    }
    let cand = read_candidate(row.field(2));
    let window = read_window(row.field(2));
    let prog = Code::read(row.field(3));
    if is_kind(row, b"cut".as_slice(), 3) {
        Some(Ask::Cut { window: window? })
    } else if is_kind(row, b"seat".as_slice(), 3) {
        Some(Ask::Seat { cand: cand? })
    } else if is_kind(row, b"why".as_slice(), 4) {
        let (cand, prog) = (cand?, prog?);
        Some(Ask::Why { cand, prog })
    } else if is_kind(row, b"list".as_slice(), 4) {
        let (round, prog) = (window?, prog?);
        Some(Ask::List { round, prog })
    } else if is_kind(row, b"round".as_slice(), 3) {
        Some(Ask::Round { round: window? })
    } else if is_kind(row, b"choices".as_slice(), 3) {
        Some(Ask::Choices { cand: cand? })
    } else if is_kind(row, b"cutoffs".as_slice(), 4) {
        let (round, prog) = (window?, prog?);
        Some(Ask::Cutoffs { round, prog })
    } else if is_kind(row, b"register".as_slice(), 3) {
        Some(Ask::Register { cand: cand? })
    } else if is_kind(row, b"answers".as_slice(), 3) {
        Some(Ask::Answers { cand: cand? })
    } else if is_kind(row, b"state".as_slice(), 2) {
        Some(Ask::State)
    } else if is_kind(row, b"raise".as_slice(), 6) {
        read_raise(row)
    } else {
        None
    }
}

/// The request that a row is. None where it is none.
pub(crate) fn read_request(row: &Rows<'_>) -> Option<Request>
    ensures { result ≡ request_of row.now.row }
{
    let by = read_by(row.field(1))?;
    let ask = read_ask(row)?;
    Some(Request { by, ask })
}
