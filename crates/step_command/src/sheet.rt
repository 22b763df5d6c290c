// A whole sheet.
ghost use Rattle.std.specs.Prelude.{length, ◌≡◌, ◌<◌, ◌≤◌, ◌+◌, ◌^◌, ◌∷◌, map, sum, IfOk, IfErr, List, Option, ℕ};
ghost use Rattle.office_base.specs.Limits.{most_candidates, most_sheet_bytes};
ghost use Rattle.office_base.specs.StepChoice.{AreRanked, IsStep};
ghost use Rattle.office_text.specs.FirstFault.{IsFaultless};
ghost use Rattle.office_text.specs.Lines.{lines_of, trimmed};
ghost use Rattle.step_command.specs.Reading.{HasHead, HasProtections, HasSeats, IsErrorOfRows, IsSeatsFault, rest_rows, rest_numbers};
ghost use Rattle.step_command.specs.Sheet.{SheetGives, IsErrorOf, IsFaultOfRows, body_judge, body_step, cand_judge, count_of, none_named, numbers_of, people_from, person_of, sheet_judge, texts_of};

use crate::line::{first_fault, next_candidate, next_protection, seats_of};
use crate::row::{next_protect, next_row, row_or_end};
use crate::{SheetError, SheetFault, SheetKind};
use office_base::limits::MOST_SHEET_BYTES;
use office_base::{CandId, Category, ListId, People, Person, Place, Protections, Step, TraitSet};
use office_text::{next_text_line, skip_mark, trim_commas};
use std::alloc::Global;
use std::collections::BTreeSet;

/// The step of a sheet, or its first fault. The people have the places 1, 2, 3 and so on in list 1 and no others.
pub fn read_sheet(alloc: Global, bytes: &[u8]) -> Result<Step, SheetError>
    ensures value { IfOk result (SheetGives bytes.now) }
    ensures fault { IfErr result (IsErrorOf bytes.now) }
    ensures step { IfOk result IsStep }
    ensures few { IfOk result (λ step. length step.people ≤ most_candidates) }
{
    if bytes.len() > MOST_SHEET_BYTES {
        return Err(SheetError::Bad(SheetFault {
            line: 0,
            kind: SheetKind::TooLong,
        }));
    }
    match head(skip_mark(bytes)) {
        Ok((seats, next, rest)) => body(alloc, seats, rest, next),
        Err(fault) => Err(SheetError::Bad(fault)),
    }
}

/// The seats of the first two rows, and the number of the next line and the bytes from there; or the first fault
/// where it is there.
fn head(bytes: &[u8]) -> Result<(u16, u32, &[u8]), SheetFault>
    requires { length bytes.now ≤ most_sheet_bytes }
    ensures head { IfOk result (λ head. HasHead bytes.now head.0 head.1 head.2.now) }
    ensures few { IfOk result (λ head. head.1 + length head.2.now ≤ most_sheet_bytes + 2) }
    ensures fault { IfErr result (IsFaultOfRows sheet_judge (texts_of
        (map trimmed (lines_of bytes.now))) (numbers_of (map trimmed (lines_of bytes.now)))) }
{
    let Some((line, rest)) = next_text_line(bytes) else {
        return Err(SheetFault {
            line: 1,
            kind: SheetKind::BadFirstLine,
        });
    };
    if let Some(kind) = first_fault(trim_commas(line)) {
        return Err(SheetFault { line: 1, kind });
    }
    seats_row(rest, 2)
}

/// The seats of the next row, and the number of the next line and the bytes from there; or the fault of the row, or
/// of the end where there is no row. `number` is that of the first line of the bytes.
fn seats_row(bytes: &[u8], number: u32) -> Result<(u16, u32, &[u8]), SheetFault>
    requires { number + length bytes.now < 2 ^ 32 }
    ensures seats { IfOk result (λ read. HasSeats bytes.now number read.0 read.1 read.2.now) }
    ensures within { IfOk result (λ read. read.1 + length read.2.now ≤ number + length bytes.now) }
    ensures fault { IfErr result
        (IsSeatsFault (rest_rows bytes.now) (rest_numbers number bytes.now)) }
{
    match row_or_end(bytes, number) {
        (at, Some((line, rest))) => match seats_of(line) {
            Some(seats) => Ok((seats, at + 1, rest)),
            None => Err(SheetFault {
                line: at,
                kind: SheetKind::BadLine,
            }),
        },
        (at, None) => Err(SheetFault {
            line: at,
            kind: SheetKind::BadLine,
        }),
    }
}

/// The step of this many seats whose protections and people the rows after them give, or their first fault. `number`
/// is that of the first line of the bytes.
fn body(alloc: Global, seats: u16, bytes: &[u8], number: u32) -> Result<Step, SheetError>
    requires { number + length bytes.now < 2 ^ 32 }
    ensures faultless { IfOk result (λ _.
        IsFaultless (body_judge seats none_named) (rest_rows bytes.now)) }
    ensures value { IfOk result (λ step. step ≡ body_step seats (rest_rows bytes.now)) }
    ensures step { IfOk result IsStep }
    ensures few { IfOk result (λ step. length step.people ≤ most_candidates) }
    ensures fault { IfErr result (IsErrorOfRows (body_judge seats none_named)
        (rest_rows bytes.now) (rest_numbers number bytes.now)) }
{
    match protections(seats, bytes, number) {
        Ok((protections, next, rest)) => Ok(Step {
            list: ListId(1),
            seats,
            protections,
            people: candidates(alloc, rest, next)?,
        }),
        Err(fault) => Err(SheetError::Bad(fault)),
    }
}

/// The protections of the rows after the seats, and the number of the next line and the bytes from there, which
/// protect nothing next; or the first fault where it is in those rows.
fn protections(
    seats: u16,
    bytes: &[u8],
    number: u32,
) -> Result<(Protections, u32, &[u8]), SheetFault>
    requires { number + length bytes.now < 2 ^ 32 }
    ensures read { IfOk result (λ read.
        HasProtections seats bytes.now number read.0.counts read.2.now read.1) }
    ensures sum { IfOk result (λ read. sum read.0.counts ≤ seats) }
    ensures within { IfOk result (λ read. read.1 + length read.2.now < 2 ^ 32) }
    ensures fault { IfErr result (IsFaultOfRows (body_judge seats none_named)
        (rest_rows bytes.now) (rest_numbers number bytes.now)) }
{
    let mut named = [None; 6];
    let mut left = seats;
    let mut rest = bytes;
    let mut next = number;
    while let Some((at, line, after)) = next_protect(rest, next) {
        match next_protection(line, &named, left) {
            Ok((t, count)) => {
                named[usize::from(t)] = Some(count);
                left -= count;
            }
            Err(kind) => return Err(SheetFault { line: at, kind }),
        }
        rest = after;
        next = at + 1;
    }
    Ok((protections_of(&named), next, rest))
}

/// The protections where lines named these: none where a trait was not named.
fn protections_of(named: &[Option<u16>; 6]) -> Protections
    ensures { result.counts ≡ map count_of named.now }
{
    let mut counts = [0; 6];
    for (t, seats) in named.iter().enumerate() {
        counts[t] = seats.unwrap_or(0);
    }
    Protections { counts }
}

/// The people of candidate rows, or the first fault of the rows. `number` is that of the first line of the bytes.
fn candidates(alloc: Global, bytes: &[u8], number: u32) -> Result<People, SheetError>
    requires { number + length bytes.now < 2 ^ 32 }
    ensures faultless { IfOk result (λ _. IsFaultless cand_judge (rest_rows bytes.now)) }
    ensures people { IfOk result (λ people. people ≡ people_from 1 (rest_rows bytes.now)) }
    ensures ranked { IfOk result (AreRanked (record { 0 = 1 })) }
    ensures few { IfOk result (λ people. length people ≤ most_candidates) }
    ensures fault { IfErr result
        (IsErrorOfRows cand_judge (rest_rows bytes.now) (rest_numbers number bytes.now)) }
{
    let mut people = People::new(alloc);
    let mut known = BTreeSet::new(alloc);
    let mut rest = bytes;
    let mut next = number;
    while let Some((at, line, after)) = next_row(rest, next) {
        let before = people.len();
        match next_candidate(line, before, &known) {
            Ok((id, traits)) => {
                people.push(person(before as u32 + 1, id, traits))?;
                known.insert(id.0)?;
            }
            Err(kind) => return Err(SheetError::Bad(SheetFault { line: at, kind })),
        }
        rest = after;
        next = at + 1;
    }
    Ok(people)
}

/// A candidate at a place of list 1.
fn person(place: u32, id: CandId, traits: TraitSet) -> Person
    ensures { result ≡ person_of place (id.0, traits.0) }
{
    Person {
        id,
        category: Category::Gen,
        traits,
        places: [
            Place::Common(place),
            Place::Absent,
            Place::Absent,
            Place::Absent,
        ],
    }
}
