// The parts of the line of a row.
ghost use Rattle.std.specs.Prelude.{◌≡◌, ◌<◌, ◌^◌, IfNone, IfSome};
ghost use Rattle.std.specs.Option.{option_map};
ghost use Rattle.text_readers.specs.Parts.{AreSpelled};
ghost use Rattle.publish.specs.Rows.{IsNoRow, IsRow, people_after, written_kind};

use office_base::{ALL_SEAT_KINDS, CandId, Person, ProgId, SeatKind};
use office_text::laws::numbers_are_inverse;
use office_text::read_number;
use seat_matrix::Matrix;
use step_lines::seat_kind_name;
use text_readers::{after, read_programme, split_at_byte};

/// Holds a row of a text: a candidate, a programme and the kind of the seat.
#[derive(Clone, Copy)]
pub(crate) struct Row {
    pub(crate) cand: CandId,
    pub(crate) prog: ProgId,
    pub(crate) step: SeatKind,
}

/// Returns the kind of seat that a text spells as it is written.
fn written_kind(text: &[u8]) -> Option<SeatKind>
    ensures { result ≡ written_kind text.now }
{
    for kind in ALL_SEAT_KINDS {
        if text == seat_kind_name(kind).as_bytes() {
            return Some(kind);
        }
    }
    None
}

/// Returns the row of a line with this first word.
pub(crate) fn read_row(matrix: &Matrix, word: &[u8], line: &[u8]) -> Option<Row>
    requires { AreSpelled matrix.now }
    ensures some { IfSome result (λ row.
        IsRow word.now matrix.now line.now row.cand.0 row.prog.0 row.step) }
    ensures small { IfSome result (λ row. row.cand.0 < 2 ^ 32) }
    ensures none { IfNone result (IsNoRow word.now matrix.now line.now) }
{
    numbers_are_inverse();
    let rest = after(line, word)?;
    let (cand, rest) = split_at_byte(rest, b' ')?;
    let (code, step) = split_at_byte(rest, b' ')?;
    let cand = read_number(cand, 0, u32::MAX)?;
    let prog = read_programme(matrix, code)?;
    let step = written_kind(step)?;
    Some(Row {
        cand: CandId(cand),
        prog,
        step,
    })
}

/// Returns the people after the first one of this id.
pub(crate) fn people_after(people: &[Person], id: u32) -> Option<&[Person]>
    ensures { option_map (λ rest. rest.now) result ≡ people_after id people.now }
{
    for (at, person) in people.iter().enumerate() {
        if person.id.0 == id {
            return Some(&people[at + 1..]);
        }
    }
    None
}
