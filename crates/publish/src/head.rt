// The first line of a text of rows.
ghost use Rattle.std.specs.Prelude.{◌≡◌, ◌≢◌, ◌<◌, ◌^◌, ℕ, IfNone, IfSome, IsTrue, ◌↔◌};
ghost use Rattle.text_readers.specs.Reading.{HasNo};
ghost use Rattle.publish.specs.Pieces.{BeginsHead, BeginsSeated};
ghost use Rattle.publish.specs.Rows.{IsNumber, head_words};

use crate::sort::Sort;
use office_text::laws::numbers_are_inverse;
use office_text::read_number;
use text_readers::{after, begins_number, left_after, split_at_byte};

/// Holds what the first line of a text says.
#[derive(Clone, Copy)]
pub(crate) struct Head {
    pub(crate) number: u16,
    pub(crate) count: u32,
}

/// Returns what the first line of a text says. A text of final admissions gives no number, and has the known one.
pub(crate) fn read_head(sort: Sort, known: u16, line: &[u8]) -> Option<Head>
    ensures some { IfSome result (λ head. line.now ≡ head_words sort head.number head.count) }
    ensures number { IfSome result (λ head. IsNumber sort known head.number) }
    ensures small { IfSome result (λ head. head.count < 2 ^ 32) }
    ensures none { IfNone result ((number count : ℕ) → IsNumber sort known number
        → count < 2 ^ 32 → line.now ≢ head_words sort number count) }
{
    match sort {
        Sort::Round => read_round_head(line),
        Sort::Final => read_final_head(known, line),
    }
}

/// Returns what the first line of a round says.
fn read_round_head(line: &[u8]) -> Option<Head>
    ensures some { IfSome result (λ head. line.now ≡ head_words Sort.Round head.number head.count) }
    ensures number { IfSome result (λ head. head.number < 2 ^ 16) }
    ensures small { IfSome result (λ head. head.count < 2 ^ 32) }
    ensures none { IfNone result ((number count : ℕ) → number < 2 ^ 16
        → count < 2 ^ 32 → line.now ≢ head_words Sort.Round number count) }
{
    numbers_are_inverse();
    let rest = after(line, b"round ")?;
    let (number, rest) = split_at_byte(rest, b' ')?;
    let number = read_number(number, 0, 65_535)?;
    let count = after(rest, b"seated ")?;
    let count = read_number(count, 0, u32::MAX)?;
    Some(Head {
        number: number as u16,
        count,
    })
}

/// Returns what the first line of final admissions says.
fn read_final_head(known: u16, line: &[u8]) -> Option<Head>
    ensures some { IfSome result (λ head. line.now ≡ head_words Sort.Final head.number head.count) }
    ensures number { IfSome result (λ head. head.number ≡ known) }
    ensures small { IfSome result (λ head. head.count < 2 ^ 32) }
    ensures none { IfNone result ((number count : ℕ) → IsNumber Sort.Final known number
        → count < 2 ^ 32 → line.now ≢ head_words Sort.Final number count) }
{
    numbers_are_inverse();
    let count = after(line, b"final ")?;
    let count = read_number(count, 0, u32::MAX)?;
    Some(Head {
        number: known,
        count,
    })
}

/// Returns whether a piece of a line begins the first line of a text, with a count up to this one.
pub(crate) fn begins_head(sort: Sort, known: u16, most: u32, piece: &[u8]) -> bool
    requires { HasNo 10 piece.now }
    ensures { IsTrue result ↔ BeginsHead sort known most piece.now }
{
    match sort {
        Sort::Round => begins_round_head(most, piece),
        Sort::Final => match left_after(piece, b"final ") {
            Some(rest) => begins_number(most, rest),
            None => false,
        },
    }
}

/// Returns whether a piece of a line begins the first line of a round, with a count up to this one.
fn begins_round_head(most: u32, piece: &[u8]) -> bool
    requires { HasNo 10 piece.now }
    ensures { (known : ℕ) → IsTrue result ↔ BeginsHead Sort.Round known most piece.now }
{
    numbers_are_inverse();
    match left_after(piece, b"round ") {
        Some(rest) => match split_at_byte(rest, b' ') {
            Some((number, rest)) => {
                read_number(number, 0, 65_535).is_some() && begins_seated(most, rest)
            }
            None => begins_number(65_535, rest),
        },
        None => false,
    }
}

/// Returns whether a piece of a line begins the count of a round, with what comes before the count.
fn begins_seated(most: u32, piece: &[u8]) -> bool
    requires { HasNo 10 piece.now }
    ensures { IsTrue result ↔ BeginsSeated most piece.now }
{
    match left_after(piece, b"seated ") {
        Some(rest) => begins_number(most, rest),
        None => false,
    }
}
