// The text of a round.
ghost use Rattle.std.specs.Prelude.{◌≡◌, ◌<◌, ◌++◌, OnOk, IfOk, length};
ghost use Rattle.published_texts.specs.Texts.{AreSeatsOf, IsSeatOf, allot_line, allot_lines, round_head, round_text};

use crate::seat::{LONGEST_ENDS, LONGEST_LINE, push_seat};
use office_base::{CandId, OutOfMemory, Person, Seat, Text};
use office_text::push_number;
use rounds::Round;
use seat_matrix::Matrix;
use std::alloc::Global;
use step_lines::push_count;

/// Returns the text of a round over these people, who are in rising order of id: how many of them have a seat, and
/// the seats in their order. The round has an entry for each of the people, and each seat is in a programme of the
/// matrix.
pub fn round_text(
    alloc: Global,
    matrix: &Matrix,
    people: &[Person],
    round: &Round,
) -> Result<Text, OutOfMemory>
    requires entries { length round.now.seats ≡ length people.now }
    requires programmes { AreSeatsOf matrix.now round.now.seats }
    ensures { IfOk result (λ text. text ≡ round_text matrix.now people.now round.now) }
{
    let seated = round.seated();
    let room = seated
        .saturating_mul(LONGEST_LINE)
        .saturating_add(LONGEST_ENDS);
    let mut out = Text::with_capacity(alloc, room)?;
    push_head(&mut out, round.number, seated)?;
    push_allots(&mut out, matrix, people, round.seats.as_slice())?;
    out.extend_from_slice(b"end round\n")?;
    Ok(out)
}

/// Puts the first line of a round.
fn push_head(out: &mut Text, number: u16, seated: usize) -> Result<(), OutOfMemory>
    ensures { OnOk result (out.new ≡ out.old ++ round_head number seated) }
{
    out.extend_from_slice(b"round ")?;
    push_number(out, u32::from(number))?;
    out.extend_from_slice(b" seated ")?;
    push_count(out, seated)?;
    out.extend_from_slice(b"\n")
}

/// Puts a line for each of the people who has a seat.
fn push_allots(
    out: &mut Text,
    matrix: &Matrix,
    people: &[Person],
    seats: &[Option<Seat>],
) -> Result<(), OutOfMemory>
    requires entries { length seats.now ≡ length people.now }
    requires programmes { AreSeatsOf matrix.now seats.now }
    ensures { OnOk result (out.new ≡ out.old ++ allot_lines matrix.now people.now seats.now) }
{
    for (at, person) in people.iter().enumerate() {
        push_allot(out, matrix, person.id, &seats[at])?;
    }
    Ok(())
}

/// Puts the line of a candidate who has a seat, and nothing for one who has none.
fn push_allot(
    out: &mut Text,
    matrix: &Matrix,
    cand: CandId,
    seat: &Option<Seat>,
) -> Result<(), OutOfMemory>
    requires { IsSeatOf matrix.now seat.now }
    ensures { OnOk result (out.new ≡ out.old ++ allot_line matrix.now cand.0 seat.now) }
{
    let Some(seat) = seat else { return Ok(()) };
    out.extend_from_slice(b"allot ")?;
    push_seat(out, matrix, cand, seat.prog, seat.step)
}
