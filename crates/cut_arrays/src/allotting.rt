// The rows of seats.
ghost use Rattle.std.specs.Prelude.{◌≡◌, ◌<◌, ◌≤◌, ◌+◌, ◌^◌, ◌++◌, [], IfOk, OnOk, length, option_copied, option_map};
ghost use Rattle.office_moves.specs.Moves.{row_before};
ghost use Rattle.cut_arrays.specs.Rows.{kept_seat, kept_seats, programmes_of, rows_of_seats};
ghost use Rattle.cut_arrays.specs.WindowEnd.{seats_of, standings};

use crate::standing::{round_seat, stand};
use answer_table::AnswerTable;
use kept_rows::{AllotRow, AllotRows};
use office_base::{CandId, Listed, OutOfMemory, Person, ProgId, Seat};
use round_options::Standing;
use rounds::Round;
use std::alloc::Global;

/// Puts the row of a seat after the others, where there is a seat.
fn push_row(
    rows: &mut AllotRows,
    round: u16,
    cand: CandId,
    seat: Option<Seat>,
) -> Result<(), OutOfMemory>
    ensures { OnOk result (rows.new ≡ rows.old ++ row_before round cand seat []) }
{
    match seat {
        Some(Seat { prog, step }) => rows.extend_from_slice(&[AllotRow {
            round,
            cand,
            prog,
            step,
        }]),
        None => Ok(()),
    }
}

/// The rows of a round of this number: one for each of the people who has a seat, in their order.
pub fn rows_of_round(
    alloc: Global,
    people: &[Person],
    number: u16,
    seats: &[Option<Seat>],
) -> Result<AllotRows, OutOfMemory>
    requires { length seats.now ≡ length people.now }
    ensures { IfOk result (λ rows. rows ≡ rows_of_seats number people.now seats.now) }
{
    let mut rows = Listed::new(alloc);
    for (at, person) in people.iter().enumerate() {
        push_row(&mut rows, number, person.id, seats[at])?;
    }
    Ok(rows)
}

/// The seat, where the standing keeps it.
fn kept_seat(standing: Standing, seat: Option<Seat>) -> Option<Seat>
    ensures { result ≡ kept_seat standing seat }
{
    if standing.holds() { seat } else { None }
}

/// Returns the programme of a seat, where there is one.
fn programme_of(seat: Option<Seat>) -> Option<ProgId>
    ensures { result ≡ option_map (λ held. held.prog) seat }
{
    match seat {
        Some(seat) => Some(seat.prog),
        None => None,
    }
}

/// Returns for each of the people the programme of the seat that they keep after the answers of a window, by how the last cut left
/// them and the last published round, where there is one.
pub fn kept_programmes(
    alloc: Global,
    left: &[Standing],
    table: &AnswerTable,
    last: Option<&Round>,
) -> Result<Vec<Option<ProgId>>, OutOfMemory>
    requires table { length table.now ≡ length left.now }
    requires seats { length (seats_of (length left.now) (option_copied last)) ≡ length left.now }
    ensures { IfOk result (λ kept. kept.items ≡ programmes_of (kept_seats
        (standings left.now table.now) (seats_of (length left.now) (option_copied last.entry)))) }
{
    let count = left.len();
    let mut kept = Vec::with_capacity(alloc, count)?;
    for (at, standing) in left.iter().enumerate() {
        let standing = stand(*standing, table, at);
        let seat = kept_seat(standing, round_seat(last, at, count));
        kept.push(programme_of(seat))?;
    }
    Ok(kept)
}

/// The final rows: one for each of the people who keeps a seat after the answers of the last window, by the last published round, where there is one.
/// Their round is one more than the rounds of the season.
pub fn final_rows(
    alloc: Global,
    people: &[Person],
    rounds: u16,
    left: &[Standing],
    table: &AnswerTable,
    last: Option<&Round>,
) -> Result<AllotRows, OutOfMemory>
    requires rounds { rounds ≤ 10 }
    requires left { length left.now ≡ length people.now }
    requires table { length table.now ≡ length people.now }
    requires seats { length (seats_of (length people.now) (option_copied last))
        ≡ length people.now }
    ensures { IfOk result (λ rows. rows ≡ rows_of_seats (rounds + 1) people.now (kept_seats
        (standings left.now table.now) (seats_of (length people.now) (option_copied last.entry)))) }
{
    let count = people.len();
    let number = rounds + 1;
    let mut rows = Listed::new(alloc);
    for (at, person) in people.iter().enumerate() {
        let standing = stand(left[at], table, at);
        let seat = kept_seat(standing, round_seat(last, at, count));
        push_row(&mut rows, number, person.id, seat)?;
    }
    Ok(rows)
}
