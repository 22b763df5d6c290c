// What a piece of a line of a list, whose end is missing, may begin.
ghost use Rattle.std.specs.Prelude.{◌≡◌, ◌≢◌, ◌<◌, ◌≤◌, ◌-◌, ◌^◌, ◌++◌, ◌∷◌, [], List, ℕ, true, IsTrue, ◌↔◌, length};
ghost use Rattle.std.specs.BTreeSet.{contains};
ghost use Rattle.std.specs.Ordering.{nat_cmp};
ghost use Rattle.office_base.specs.declared.person.Person.{Person as AnyPerson};
ghost use Rattle.text_readers.specs.Parts.{is_prefix};
ghost use Rattle.text_readers.specs.Reading.{HasNo};
ghost use Rattle.list_texts.specs.ListLines.{CanStand, IsListHead, IsStepHead, entry_words, list_words, step_words, BeginsLine};
ghost use Rattle.list_texts.specs.ListPieces.{BeginsCandidates, BeginsCount, BeginsEntry, BeginsLetter, BeginsListCode, BeginsSeats, BeginsSlot};
ghost use Rattle.list_texts.specs.ListReader.{AreRising};
ghost use Rattle.list_texts.specs.Listing.{is_listed};

use crate::numbers::{NumberLeft, begins_count, past_number};
use itoa::Buffer;
use office_base::{Person, ProgId, StepKind};
use office_text::letter_of;
use seat_matrix::Matrix;
use std::collections::BTreeSet;
use step_lines::step_name;
use text_readers::{begins_whole, left_after};

/// Returns whether a piece begins the code of some programme with the end of the line.
fn begins_list_code(matrix: &Matrix, piece: &[u8]) -> bool
    ensures { IsTrue result ↔ BeginsListCode matrix.now piece.now }
{
    for prog in 0..matrix.count() {
        let code = matrix.code(ProgId(prog));
        if begins_whole(piece, code.bytes()) {
            return true;
        }
    }
    false
}

/// Returns whether a piece of a line begins the first line of a list.
pub(crate) fn begins_list_head(matrix: &Matrix, piece: &[u8]) -> bool
    requires { 0 < length matrix.now.programmes }
    ensures { IsTrue result ↔ BeginsLine (list_words matrix.now) (IsListHead matrix.now) piece.now }
{
    match past_number(b"list ", 65_535, piece) {
        NumberLeft::Inside => true,
        NumberLeft::Past(rest) => begins_list_code(matrix, rest),
        NumberLeft::Apart => false,
    }
}

/// Returns whether a piece of a line begins that of this step, which admits no more than this number.
pub(crate) fn begins_step_head(kind: StepKind, most: u32, piece: &[u8]) -> bool
    requires { HasNo 10 piece.now }
    ensures { IsTrue result ↔ BeginsLine (step_words kind) (IsStepHead most) piece.now }
{
    match left_after(piece, b"step ") {
        Some(rest) => match left_after(rest, step_name(kind).as_bytes()) {
            Some(rest) => begins_seats(most, rest),
            None => false,
        },
        None => false,
    }
}

/// Returns whether a piece begins the numbers of a step.
fn begins_seats(most: u32, piece: &[u8]) -> bool
    requires { HasNo 10 piece.now }
    ensures { IsTrue result ↔ BeginsSeats most piece.now }
{
    match past_number(b" seats ", u32::MAX, piece) {
        NumberLeft::Inside => true,
        NumberLeft::Past(rest) => begins_candidates(most, rest),
        NumberLeft::Apart => false,
    }
}

/// Returns whether a piece begins the numbers of a step after that of the seats.
fn begins_candidates(most: u32, piece: &[u8]) -> bool
    requires { HasNo 10 piece.now }
    ensures { IsTrue result ↔ BeginsCandidates most piece.now }
{
    match past_number(b"candidates ", u32::MAX, piece) {
        NumberLeft::Inside => true,
        NumberLeft::Past(rest) => begins_count(b"admitted ", most, rest),
        NumberLeft::Apart => false,
    }
}

/// Returns whether a piece begins the letter of a trait with the end of the line.
fn begins_letter(piece: &[u8]) -> bool
    ensures { IsTrue result ↔ BeginsLetter piece.now }
{
    for slot in 0..6 {
        if begins_whole(piece, &[letter_of(slot)]) {
            return true;
        }
    }
    false
}

/// Returns whether a piece begins the dash of a row without a slot. That many rows are left after it, and with it that
/// many slots.
fn begins_dash(left: u32, slots: u32, piece: &[u8]) -> bool
    ensures { IsTrue result ↔ ((slots ≤ left) × (is_prefix piece.now (45 ∷ 10 ∷ []) ≡ true)) }
{
    slots <= left && begins_whole(piece, b"-")
}

/// Returns whether a piece begins the letter of a row with a slot. That many rows are left after it, and with it that
/// many slots.
fn begins_trait(left: u32, slots: u32, piece: &[u8]) -> bool
    ensures { IsTrue result ↔ ((0 < slots) × (slots - 1 ≤ left) × BeginsLetter piece.now) }
{
    if slots == 0 || slots - 1 > left {
        return false;
    }
    begins_letter(piece)
}

/// Returns whether a piece begins a slot that is possible when that many rows are left after it, and with it that
/// many slots.
fn begins_slot(left: u32, slots: u32, piece: &[u8]) -> bool
    ensures { IsTrue result ↔ BeginsSlot left slots piece.now }
{
    if begins_dash(left, slots, piece) {
        return true;
    }
    begins_trait(left, slots, piece)
}

/// Returns whether a piece begins the row of this candidate, with such a slot.
fn begins_entry(id: u32, left: u32, slots: u32, piece: &[u8]) -> bool
    ensures { IsTrue result ↔ BeginsEntry id left slots piece.now }
{
    let mut buffer = Buffer::new();
    let digits = buffer.format(id).as_bytes();
    match left_after(piece, digits) {
        Some(rest) => match left_after(rest, b" ") {
            Some(rest) => begins_slot(left, slots, rest),
            None => false,
        },
        None => false,
    }
}

/// Returns whether a piece of a line begins a row of one of these people whose id is not used. That many rows are left
/// after it, and with it that many slots.
pub(crate) fn begins_entries(
    people: &[Person],
    used: &BTreeSet<u32>,
    left: u32,
    slots: u32,
    piece: &[u8],
) -> bool
    requires { AreRising people.now }
    ensures { (admitted : List AnyPerson)
        → ((id : ℕ) → contains nat_cmp used.now id ≡ is_listed id admitted) → IsTrue result
        ↔ BeginsLine entry_words (CanStand people.now admitted left slots) piece.now }
{
    for person in people {
        if !used.contains(&person.id.0) && begins_entry(person.id.0, left, slots, piece) {
            return true;
        }
    }
    false
}
