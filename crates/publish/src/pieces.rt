// What a piece of a line, whose end is missing, may begin.
ghost use Rattle.std.specs.Prelude.{◌<◌, IsTrue, ◌↔◌, length};
ghost use Rattle.publish.specs.Pieces.{BeginsCode, BeginsKind, BeginsRow, BeginsRows, BeginsSeat};

use itoa::Buffer;
use office_base::{ALL_SEAT_KINDS, CandId, Person, ProgId};
use seat_matrix::Matrix;
use step_lines::seat_kind_name;
use text_readers::{begins_whole, left_after};

/// Returns whether a piece begins the name of a kind of seat with the end of the line.
fn begins_kind(piece: &[u8]) -> bool
    ensures { IsTrue result ↔ BeginsKind piece.now }
{
    for kind in ALL_SEAT_KINDS {
        if begins_whole(piece, seat_kind_name(kind).as_bytes()) {
            return true;
        }
    }
    false
}

/// Returns whether a piece begins the code of this programme with the kind of a seat.
fn begins_code(matrix: &Matrix, prog: ProgId, piece: &[u8]) -> bool
    requires { prog.0 < length matrix.now.programmes }
    ensures { IsTrue result ↔ BeginsCode matrix.now prog.0 piece.now }
{
    let code = matrix.code(prog);
    match left_after(piece, code.bytes()) {
        Some(rest) => match left_after(rest, b" ") {
            Some(rest) => begins_kind(rest),
            None => false,
        },
        None => false,
    }
}

/// Returns whether a piece begins the code of some programme with the kind of a seat.
fn begins_seat(matrix: &Matrix, piece: &[u8]) -> bool
    ensures { IsTrue result ↔ BeginsSeat matrix.now piece.now }
{
    for prog in 0..matrix.count() {
        if begins_code(matrix, ProgId(prog), piece) {
            return true;
        }
    }
    false
}

/// Returns whether a piece begins a row of this candidate.
fn begins_row(matrix: &Matrix, word: &[u8], cand: CandId, piece: &[u8]) -> bool
    ensures { IsTrue result ↔ BeginsRow word.now matrix.now cand.0 piece.now }
{
    let mut buffer = Buffer::new();
    let digits = buffer.format(cand.0).as_bytes();
    match left_after(piece, word) {
        Some(rest) => match left_after(rest, digits) {
            Some(rest) => match left_after(rest, b" ") {
                Some(rest) => begins_seat(matrix, rest),
                None => false,
            },
            None => false,
        },
        None => false,
    }
}

/// Returns whether a piece begins a row of one of these people after whom so many rows, with this one, can follow.
pub(crate) fn begins_rows(
    matrix: &Matrix,
    word: &[u8],
    people: &[Person],
    left: usize,
    piece: &[u8],
) -> bool
    ensures { IsTrue result ↔ BeginsRows word.now matrix.now left people.now piece.now }
{
    for (at, person) in people.iter().enumerate() {
        if left <= people.len() - at && begins_row(matrix, word, person.id, piece) {
            return true;
        }
    }
    false
}
