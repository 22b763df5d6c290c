// The lines of a list.
ghost use Rattle.std.specs.Prelude.{◌≡◌, ◌≢◌, ◌<◌, ◌≤◌, ◌-◌, ◌^◌, ◌++◌, ◌∷◌, [], List, ℕ, Option, IfNone, IfSome, IsTrue, ◌↔◌, length};
ghost use Rattle.std.specs.BTreeSet.{contains};
ghost use Rattle.std.specs.Fmt.{decimal};
ghost use Rattle.std.specs.Ordering.{nat_cmp};
ghost use Rattle.office_base.specs.declared.person.Person.{Person as AnyPerson};
ghost use Rattle.step_lines.specs.Lines.{slot_letter};
ghost use Rattle.text_readers.specs.Parts.{AreSmall, AreSpelled};
ghost use Rattle.list_texts.specs.ListLines.{CanStand, IsListHead, IsStepHead, entry_words, honoured_words, list_words, most_slots, slots_in, step_words};
ghost use Rattle.list_texts.specs.Listing.{Entry, is_listed};

use crate::numbers::{count_after, number_after, number_before};
use office_base::{CandId, Person, ProgId, StepKind};
use office_text::trait_number;
use rank_lists::Register;
use seat_matrix::Matrix;
use std::collections::BTreeSet;
use step_lines::step_name;
use text_readers::{after, read_programme};

/// Holds what the line of a step says.
#[derive(Clone, Copy)]
pub(crate) struct StepHead {
    pub(crate) seats: u32,
    pub(crate) candidates: u32,
    pub(crate) admitted: u32,
}

/// Returns the round and the programme that the first line of a list names.
pub(crate) fn list_head(matrix: &Matrix, line: &[u8]) -> Option<(u16, ProgId)>
    requires { AreSpelled matrix.now }
    ensures some { IfSome result (λ head. line.now ≡ list_words matrix.now (head.0, head.1.0)) }
    ensures may { IfSome result (λ head. IsListHead matrix.now (head.0, head.1.0)) }
    ensures none { IfNone result ((part : ℕ × ℕ) → IsListHead matrix.now part
        → line.now ≢ list_words matrix.now part) }
{
    let (number, code) = number_after(b"list ", 65_535, line)?;
    let prog = read_programme(matrix, code)?;
    Some((number as u16, prog))
}

/// Returns what the line of this step says, if it admits no more than this number.
pub(crate) fn step_head(kind: StepKind, most: u32, line: &[u8]) -> Option<StepHead>
    ensures some { IfSome result (λ head.
        line.now ≡ step_words kind (head.seats, head.candidates, head.admitted)) }
    ensures may { IfSome result (λ head.
        IsStepHead most (head.seats, head.candidates, head.admitted)) }
    ensures none { IfNone result ((part : ℕ × ℕ × ℕ) → IsStepHead most part
        → line.now ≢ step_words kind part) }
{
    let rest = after(line, b"step ")?;
    let rest = after(rest, step_name(kind).as_bytes())?;
    let (seats, rest) = number_after(b" seats ", u32::MAX, rest)?;
    let (candidates, rest) = number_after(b"candidates ", u32::MAX, rest)?;
    let admitted = count_after(b"admitted ", most, rest)?;
    Some(StepHead {
        seats,
        candidates,
        admitted,
    })
}

/// Returns how many of so many rows of this step may have a slot: none of the seats that categories left.
pub(crate) fn slots_within(kind: StepKind, rows: u32) -> u32
    ensures { result ≡ most_slots kind rows }
{
    match kind {
        StepKind::Dereserved => 0,
        _ => rows,
    }
}

/// Returns how many slots the line after that of a step names, if it names no more than this number.
pub(crate) fn honoured_slots(most: u32, line: &[u8]) -> Option<u32>
    ensures some { IfSome result (λ slots. line.now ≡ honoured_words slots) }
    ensures may { IfSome result (λ slots. slots ≤ most) }
    ensures none { IfNone result ((slots : ℕ) → slots ≤ most → line.now ≢ honoured_words slots) }
{
    count_after(b"honoured ", most, line)
}

/// Returns the slot of a letter: a trait, or none for a dash.
fn slot_of(letter: u8) -> Option<Option<u8>>
    ensures some { IfSome result (λ slot. letter ≡ slot_letter slot) }
    ensures known { IfSome result (λ slot. IfSome slot (λ t. t < 6)) }
    ensures none { IfNone result ((slot : Option ℕ)
        → IfSome slot (λ t. t < 6) → letter ≢ slot_letter slot) }
{
    if letter == b'-' {
        return Some(None);
    }
    match trait_number(letter) {
        Some(slot) => Some(Some(slot)),
        None => None,
    }
}

/// Returns the slot that a text spells: a trait, or a dash for none.
fn read_slot(text: &[u8]) -> Option<Option<u8>>
    ensures some { IfSome result (λ slot. text.now ≡ slot_letter slot ∷ []) }
    ensures known { IfSome result (λ slot. IfSome slot (λ t. t < 6)) }
    ensures none { IfNone result ((slot : Option ℕ) → IfSome slot (λ t. t < 6)
        → text.now ≢ slot_letter slot ∷ []) }
{
    match text {
        [letter] => slot_of(*letter),
        _ => None,
    }
}

/// Returns the candidate and the slot of the line of a row.
fn read_entry(line: &[u8]) -> Option<(CandId, Option<u8>)>
    ensures some { IfSome result (λ row.
        line.now ≡ decimal row.0.0 ++ 32 ∷ slot_letter row.1 ∷ []) }
    ensures small { IfSome result (λ row. row.0.0 < 2 ^ 32) }
    ensures known { IfSome result (λ row. IfSome row.1 (λ t. t < 6)) }
    ensures none { IfNone result ((id : ℕ) (slot : Option ℕ) → id < 2 ^ 32
        → IfSome slot (λ t. t < 6) → line.now ≢ decimal id ++ 32 ∷ slot_letter slot ∷ []) }
{
    let (id, slot) = number_before(u32::MAX, line)?;
    let slot = read_slot(slot)?;
    Some((CandId(id), slot))
}

/// Returns whether a slot is possible when that many rows are left after it, and with it that many slots.
fn can_have(slot: Option<u8>, left: u32, slots: u32) -> bool
    ensures { IsTrue result ↔ ((slots_in slot ≤ slots) × (slots - slots_in slot ≤ left)) }
{
    match slot {
        Some(_) => 0 < slots && slots - 1 <= left,
        None => slots <= left,
    }
}

/// Returns the person and the slot of the line of a row, if none of the used ids is theirs. That many rows are left
/// after it, and with it that many slots.
pub(crate) fn next_entry(
    register: &Register,
    used: &BTreeSet<u32>,
    left: u32,
    slots: u32,
    line: &[u8],
) -> Option<(Person, Option<u8>)>
    requires { AreSmall register.now.people }
    ensures some { IfSome result (λ row. line.now ≡ entry_words row) }
    ensures may { IfSome result (λ row. (admitted : List AnyPerson)
        → ((id : ℕ) → contains nat_cmp used.now id ≡ is_listed id admitted)
        → CanStand register.now.people admitted left slots row) }
    ensures none { IfNone result ((admitted : List AnyPerson)
        → ((id : ℕ) → contains nat_cmp used.now id ≡ is_listed id admitted) → (row : Entry)
        → CanStand register.now.people admitted left slots row → line.now ≢ entry_words row) }
{
    let (id, slot) = read_entry(line)?;
    let person = register.person(id)?;
    if !used.contains(&id.0) && can_have(slot, left, slots) {
        Some((*person, slot))
    } else {
        None
    }
}
