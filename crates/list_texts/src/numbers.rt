// Numbers in a line, after a word.
ghost use Rattle.std.specs.Prelude.{◌≡◌, ◌≢◌, ◌<◌, ◌≤◌, ◌^◌, ◌++◌, ◌∷◌, [], List, ℕ, IfNone, IfSome, IsTrue, ◌↔◌};
ghost use Rattle.std.specs.Fmt.{decimal};
ghost use Rattle.text_readers.specs.Reading.{HasNo};
ghost use Rattle.list_texts.specs.ListPieces.{BeginsCount, IsNumberLeft};

use office_text::laws::numbers_are_inverse;
use office_text::read_number;
use text_readers::{after, begins_number, left_after, split_at_byte};

/// Returns the number up to this one with which bytes begin before a space, and what follows the space.
pub(crate) fn number_before(high: u32, bytes: &[u8]) -> Option<(u32, &[u8])>
    ensures small { IfSome result (λ found. found.0 ≤ high) }
    ensures some { IfSome result (λ found. bytes.now ≡ decimal found.0 ++ 32 ∷ found.1.now) }
    ensures none { IfNone result ((n : ℕ) (rest : List ℕ)
        → n ≤ high → bytes.now ≢ decimal n ++ 32 ∷ rest) }
{
    numbers_are_inverse();
    let (number, rest) = split_at_byte(bytes, b' ')?;
    let number = read_number(number, 0, high)?;
    Some((number, rest))
}

/// Returns the number up to this one that is in a line after a word and before a space, and what follows the space.
pub(crate) fn number_after<'a>(word: &[u8], high: u32, line: &'a [u8]) -> Option<(u32, &'a [u8])>
    ensures small { IfSome result (λ found. found.0 ≤ high) }
    ensures some { IfSome result (λ found.
        line.now ≡ word.now ++ (decimal found.0 ++ 32 ∷ found.1.now)) }
    ensures none { IfNone result ((n : ℕ) (rest : List ℕ) → n ≤ high
        → line.now ≢ word.now ++ (decimal n ++ 32 ∷ rest)) }
{
    let rest = after(line, word)?;
    let (number, rest) = number_before(high, rest)?;
    Some((number, rest))
}

/// Returns the number up to this one that a text spells.
fn whole_number(high: u32, text: &[u8]) -> Option<u32>
    ensures small { IfSome result (λ n. n ≤ high) }
    ensures some { IfSome result (λ n. text.now ≡ decimal n) }
    ensures none { IfNone result ((n : ℕ) → n ≤ high → text.now ≢ decimal n) }
{
    numbers_are_inverse();
    read_number(text, 0, high)
}

/// Returns the number up to this one that is all of a line after a word.
pub(crate) fn count_after(word: &[u8], high: u32, line: &[u8]) -> Option<u32>
    ensures small { IfSome result (λ n. n ≤ high) }
    ensures some { IfSome result (λ n. line.now ≡ word.now ++ decimal n) }
    ensures none { IfNone result ((n : ℕ) → n ≤ high → line.now ≢ word.now ++ decimal n) }
{
    let rest = after(line, word)?;
    let count = whole_number(high, rest)?;
    Some(count)
}

/// Says what is left of a piece of a line after a word, a number and a space.
#[derive(Clone, Copy)]
pub(crate) enum NumberLeft<'a> {
    /// The piece ends in the word or in the number, or before the space: it begins them with any tail.
    Inside,
    /// The rest, after the space.
    Past(&'a [u8]),
    /// The piece does not begin them.
    Apart,
}

/// Returns what is left of a piece of a line after a word, a number up to this one, and a space.
pub(crate) fn past_number<'a>(word: &[u8], high: u32, piece: &'a [u8]) -> NumberLeft<'a>
    ensures { IsNumberLeft word.now high piece.now result }
{
    match left_after(piece, word) {
        Some(rest) => past_digits(high, rest),
        None => NumberLeft::Apart,
    }
}

/// Returns what is left of a piece of a line after a number up to this one and a space.
fn past_digits(high: u32, piece: &[u8]) -> NumberLeft<'_>
    ensures { IsNumberLeft [] high piece.now result }
{
    match split_at_byte(piece, b' ') {
        Some((number, rest)) => match whole_number(high, number) {
            Some(_) => NumberLeft::Past(rest),
            None => NumberLeft::Apart,
        },
        None => {
            if begins_number(high, piece) {
                NumberLeft::Inside
            } else {
                NumberLeft::Apart
            }
        }
    }
}

/// Returns whether a piece of a line begins this word with a number up to this one and the end of the line.
pub(crate) fn begins_count(word: &[u8], most: u32, piece: &[u8]) -> bool
    requires { HasNo 10 piece.now }
    ensures { IsTrue result ↔ BeginsCount word.now most piece.now }
{
    match left_after(piece, word) {
        Some(rest) => begins_number(most, rest),
        None => false,
    }
}
