// One line of a sheet.
ghost use Rattle.std.specs.Prelude.{◌≡◌, ◌≤◌, ◌<◌, ◌+◌, length, slice_index_or, Option, Some, None, Bool, true, false, IfOk, IfErr, IfSome};
ghost use Rattle.std.specs.Ordering.{nat_cmp};
ghost use Rattle.std.specs.BTreeSet.{contains};
ghost use Rattle.std.specs.Option.{option_copied, option_map};
ghost use Rattle.office_base.specs.Limits.{most_candidates};
ghost use Rattle.office_base.specs.Person.{IsTraitSet};
ghost use Rattle.step_command.specs.Reading.{fields_after};
ghost use Rattle.step_command.specs.Sheet.{is_protect, first_fault, seats_of, trait_in, protect_of, protect_fault, total, traits_in, cand_of, cand_fault};

use crate::SheetKind;
use office_base::limits::{LAST_ID, MOST_CANDIDATES, MOST_STEP_SEATS};
use office_base::{CandId, TraitSet};
use office_text::{next_field, read_number, read_traits, trait_number};
use std::collections::BTreeSet;

/// What is wrong with the first line of a sheet.
pub(crate) fn first_fault(line: &[u8]) -> Option<SheetKind>
    ensures { result ≡ first_fault line.now }
{
    if line == b"step sheet 1".as_slice() {
        None
    } else {
        Some(SheetKind::BadFirstLine)
    }
}

/// The number of seats that a line gives.
pub(crate) fn seats_of(line: &[u8]) -> Option<u16>
    ensures { result ≡ seats_of line.now }
{
    let (word, rest) = next_field(line);
    let (number, more) = next_field(rest?);
    if word != b"seats".as_slice() {
        return None;
    }
    match more {
        Some(_) => None,
        None => Some(read_number(number, 0, MOST_STEP_SEATS)? as u16),
    }
}

/// Whether the first field of a line is `protect`.
pub(crate) fn is_protect(line: &[u8]) -> bool
    ensures { result ≡ is_protect line.now }
{
    next_field(line).0 == b"protect".as_slice()
}

/// The trait and the number of seats of a line that protects seats, after lines that named these and left this many
/// seats without protection; or what is wrong with the line.
pub(crate) fn next_protection(
    line: &[u8],
    named: &[Option<u16>; 6],
    left: u16,
) -> Result<(u8, u16), SheetKind>
    ensures pair { IfOk result (λ pair. protect_of line.now ≡ Some (pair.0, pair.1)) }
    ensures small { IfOk result (λ pair. pair.0 < 6) }
    ensures within { IfOk result (λ pair. pair.1 ≤ left) }
    ensures new { IfOk result (λ pair. slice_index_or named.now pair.0 None ≡ None) }
    ensures right { IfOk result (λ _.
        protect_fault (total named.now + left) named.now (protect_of line.now) ≡ None) }
    ensures fault { IfErr result (λ kind.
        protect_fault (total named.now + left) named.now (protect_of line.now) ≡ Some kind) }
{
    let Some((t, seats)) = protect_of(line) else {
        return Err(SheetKind::BadLine);
    };
    if named[usize::from(t)].is_some() {
        Err(SheetKind::RepeatedProtect)
    } else if left < seats {
        Err(SheetKind::ProtectionsExceedSeats)
    } else {
        Ok((t, seats))
    }
}

/// The candidate of a line after `before` candidate lines, of whose candidates these are the numbers; or what is
/// wrong with the line.
pub(crate) fn next_candidate(
    line: &[u8],
    before: usize,
    known: &BTreeSet<u32>,
) -> Result<(CandId, TraitSet), SheetKind>
    ensures cand { IfOk result (λ cand. cand_of line.now ≡ Some (cand.0.0, cand.1.0)) }
    ensures set { IfOk result (λ cand. IsTraitSet cand.1) }
    ensures right { IfOk result (λ _.
        cand_fault before (contains nat_cmp known.now) (cand_of line.now) ≡ None) }
    ensures new { IfOk result (λ cand. contains nat_cmp known.now cand.0.0 ≡ false) }
    ensures few { IfOk result (λ _. before < most_candidates) }
    ensures fault { IfErr result (λ kind.
        cand_fault before (contains nat_cmp known.now) (cand_of line.now) ≡ Some kind) }
{
    match candidate_of(line) {
        None => Err(SheetKind::BadLine),
        Some((id, _)) if known.contains(&id.0) => Err(SheetKind::RepeatedCandidate),
        Some(_) if before >= MOST_CANDIDATES => Err(SheetKind::TooMany),
        Some(candidate) => Ok(candidate),
    }
}

/// The trait for which a line protects seats, and how many.
fn protect_of(line: &[u8]) -> Option<(u8, u16)>
    ensures value { option_map (λ pair. (pair.0, pair.1)) result ≡ protect_of line.now }
    ensures small { IfSome result (λ pair. pair.0 < 6) }
{
    let (_, rest) = next_field(line);
    let (letter, rest) = next_field(rest?);
    let (number, more) = next_field(rest?);
    match more {
        Some(_) => None,
        None => Some((
            trait_in(letter)?,
            read_number(number, 0, MOST_STEP_SEATS)? as u16,
        )),
    }
}

/// The trait that one letter names.
fn trait_in(text: &[u8]) -> Option<u8>
    ensures value { result ≡ trait_in text.now }
    ensures small { IfSome result (λ t. t < 6) }
{
    match text {
        [letter] => trait_number(*letter),
        _ => None,
    }
}

/// The number and the traits of the candidate that a line gives.
fn candidate_of(line: &[u8]) -> Option<(CandId, TraitSet)>
    ensures value { option_map (λ cand. (cand.0.0, cand.1.0)) result ≡ cand_of line.now }
    ensures set { IfSome result (λ cand. IsTraitSet cand.1) }
{
    let (word, rest) = next_field(line);
    let (number, rest) = next_field(rest?);
    if word != b"cand".as_slice() {
        return None;
    }
    let id = read_number(number, 1, LAST_ID)?;
    Some((CandId(id), traits_after(rest)?))
}

/// The set of traits after the comma of a candidate's number: none without a comma.
fn traits_after(rest: Option<&[u8]>) -> Option<TraitSet>
    ensures value { option_map (λ traits. traits.0) result
        ≡ traits_in (fields_after (option_copied rest.entry)) }
    ensures set { IfSome result IsTraitSet }
{
    let Some(rest) = rest else {
        return Some(TraitSet(0));
    };
    let (text, more) = next_field(rest);
    match more {
        Some(_) => None,
        None => read_traits(text),
    }
}
