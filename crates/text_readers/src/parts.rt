// The parts of a line, and what a piece of one, whose end is missing, may begin.
ghost use Rattle.std.specs.Prelude.{◌≡◌, ◌≢◌, ◌<◌, ◌++◌, ◌∷◌, [], List, ℕ, IfNone, IfSome, IsTrue, ◌↔◌, length};
ghost use Rattle.published_texts.specs.Texts.{code_in};
ghost use Rattle.text_readers.specs.Parts.{AreSpelled, BeginsNumber, IsApart, IsLeft, is_prefix};
ghost use Rattle.text_readers.specs.Reading.{HasNo};

use memchr::memchr;
use office_base::{Code, ProgId};
use office_text::laws::numbers_are_inverse;
use office_text::read_number;
use seat_matrix::Matrix;

/// Returns what comes before the first of these bytes, and what follows it. `None` if there is none.
pub fn split_at_byte(bytes: &[u8], byte: u8) -> Option<(&[u8], &[u8])>
    ensures some { IfSome result (λ parts. bytes.now ≡ parts.0.now ++ byte ∷ parts.1.now) }
    ensures first { IfSome result (λ parts. HasNo byte parts.0.now) }
    ensures shorter { IfSome result (λ parts. length parts.1.now < length bytes.now) }
    ensures none { IfNone result (HasNo byte bytes.now) }
{
    match memchr(byte, bytes) {
        Some(end) => Some((&bytes[..end], &bytes[end + 1..])),
        None => None,
    }
}

/// Returns what follows a word. `None` if the bytes do not begin with it.
pub fn after<'a>(bytes: &'a [u8], word: &[u8]) -> Option<&'a [u8]>
    ensures some { IfSome result (λ rest. bytes.now ≡ word.now ++ rest.now) }
    ensures none { IfNone result ((rest : List ℕ) → bytes.now ≢ word.now ++ rest) }
{
    bytes.strip_prefix(word)
}

/// Returns what is left of a piece of a line after a part of it: nothing if it ends inside the part. `None` if it does
/// not begin the part with any tail.
pub fn left_after<'a>(piece: &'a [u8], part: &[u8]) -> Option<&'a [u8]>
    ensures some { IfSome result (λ rest. IsLeft piece.now part.now rest.now) }
    ensures none { IfNone result (IsApart piece.now part.now) }
{
    match after(piece, part) {
        Some(rest) => Some(rest),
        None => match after(part, piece) {
            Some(_) => Some(&[]),
            None => None,
        },
    }
}

/// Returns whether a piece begins these bytes with the end of the line.
pub fn begins_whole(piece: &[u8], bytes: &[u8]) -> bool
    ensures { result ≡ is_prefix piece.now (bytes.now ++ 10 ∷ []) }
{
    match left_after(piece, bytes) {
        Some(rest) => match left_after(rest, b"\n") {
            Some(rest) => rest.is_empty(),
            None => false,
        },
        None => false,
    }
}

/// Returns whether a piece without this byte begins a number up to this one, and the byte.
pub fn begins_number(high: u32, piece: &[u8]) -> bool
    ensures { (byte : ℕ) (tail : List ℕ) → HasNo byte piece.now
        → IsTrue result ↔ BeginsNumber high (byte ∷ tail) piece.now }
{
    numbers_are_inverse();
    piece.is_empty() || read_number(piece, 0, high).is_some()
}

/// Returns the programme of the code that a text spells.
pub fn read_programme(matrix: &Matrix, text: &[u8]) -> Option<ProgId>
    requires { AreSpelled matrix.now }
    ensures some { IfSome result (λ prog. (prog.0 < length matrix.now.programmes)
        × (text.now ≡ code_in matrix.now prog.0)) }
    ensures none { IfNone result ((prog : ℕ) → prog < length matrix.now.programmes
        → text.now ≢ code_in matrix.now prog) }
{
    match Code::read(text) {
        Some(code) => matrix.find(code),
        None => None,
    }
}
