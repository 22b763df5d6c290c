// What the candidates seek next.
ghost use Rattle.std.specs.Prelude.{◌≡◌, ◌<◌, ◌≤◌, ◌^◌, IfOk, length, option_copied, option_map};
ghost use Rattle.allocations.specs.Market.{place_of};
ghost use Rattle.cut_arrays.specs.NextSeeks.{AreSeated, seeks_after};
ghost use Rattle.cut_arrays.specs.WindowEnd.{seats_of, standings};

use crate::standing::{round_seat, stand};
use answer_table::AnswerTable;
use choice_lists::Choices;
use office_base::{Listed, OutOfMemory, Person, ProgId, Seat};
use round_options::{Standing, next_seek};
use rounds::{Round, Seeks};
use std::alloc::Global;

/// Returns the place of a programme on a list, counted from 0, or the length of the list if the programme is not on it.
pub fn place_of(list: &[ProgId], prog: ProgId) -> usize
    ensures place { result ≡ place_of list.now prog.0 }
    ensures within { result ≤ length list.now }
{
    for (place, other) in list.iter().enumerate() {
        if *other == prog {
            return place;
        }
    }
    list.len()
}

/// The place of a seat in a list, where there is a seat.
fn seat_place(list: &[ProgId], seat: Option<Seat>) -> Option<u16>
    requires { length list.now ≤ 1000 }
    ensures { result ≡ option_map (λ seat. place_of list.now seat.prog.0) seat }
{
    match seat {
        Some(seat) => Some(place_of(list, seat.prog) as u16),
        None => None,
    }
}

/// What each of the people seeks after the answers of a window, by how the last cut left them and the last published round, where there is one.
pub fn seeks_after(
    alloc: Global,
    people: &[Person],
    choices: &Choices,
    left: &[Standing],
    table: &AnswerTable,
    last: Option<&Round>,
) -> Result<Seeks, OutOfMemory>
    requires left { length left.now ≡ length people.now }
    requires table { length table.now ≡ length people.now }
    requires seats { length (seats_of (length people.now) (option_copied last))
        ≡ length people.now }
    requires seated { AreSeated (standings left.now table.now)
        (seats_of (length people.now) (option_copied last)) }
    ensures { IfOk result (λ seeks. seeks ≡ seeks_after choices.now people.now
        (standings left.now table.now) (seats_of (length people.now) (option_copied last.entry))) }
{
    let count = people.len();
    let mut seeks = Vec::with_capacity(alloc, count)?;
    for (at, person) in people.iter().enumerate() {
        let standing = stand(left[at], table, at);
        let seat = round_seat(last, at, count);
        let place = seat_place(choices.list_near(at, person.id), seat);
        seeks.push(next_seek(standing, place))?;
    }
    Ok(Listed::from_vec(seeks))
}
