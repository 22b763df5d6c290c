// The kept seats of a round against those that were computed.
ghost use Rattle.std.specs.Prelude.{◌≡◌, ◌∷◌, [], ℕ, List, Option, IfOk, length};
ghost use Rattle.office_base.specs.declared.seat.Seat.{Seat as AnySeat};
ghost use Rattle.kept_rows.specs.declared.rows.AllotRow.{AllotRow as AnyRow};
ghost use Rattle.office_moves.specs.Stands.{first_allot};
ghost use Rattle.replays.specs.Differences.{AreFound, IsComparison, IsComparisonOf, IsFirstPlace, IsOfNobody, IsOfPeople, IsStranger, seat_along};

use kept_rows::AllotRow;
use office_base::{CandId, OutOfMemory, Seat};
use rank_lists::Register;
use std::alloc::Global;

/// A candidate whose kept seat is not the computed one.
#[derive(Clone, Copy)]
pub(crate) struct Difference {
    pub(crate) cand: CandId,
    pub(crate) kept: Option<Seat>,
    pub(crate) computed: Option<Seat>,
}

/// The seat of a row is found, where the row is of the round, and its candidate, of the register, has none yet.
fn put_seat(found: &mut [Option<Seat>], register: &Register, row: AllotRow, number: u16)
    requires { length found.old ≡ length register.now.people }
    ensures { (rows rest : List AnyRow) → AreFound number register.now.people rows
        (row ∷ rest) found.old → AreFound number register.now.people rows rest found.new }
{
    let _people = register.people();
    if row.round != number {
        return;
    }
    let Some(at) = register.position(row.cand) else {
        return;
    };
    let at = at as usize;
    if let None = found[at] {
        found[at] = Some(Seat {
            prog: row.prog,
            step: row.step,
        });
    }
}

/// The first seat that some rows give each person of the register in a round.
pub(crate) fn seats_in(
    alloc: Global,
    register: &Register,
    rows: &[AllotRow],
    number: u16,
) -> Result<Vec<Option<Seat>>, OutOfMemory>
    ensures { IfOk result (λ found. AreFound number register.now.people rows.now [] found.items) }
{
    let mut found = vec![in alloc; None; register.people().len()]?;
    for row in rows {
        put_seat(&mut found, register, *row, number);
    }
    Ok(found)
}

/// The first place at which the two differ.
fn first_place(first: &[Option<Seat>], second: &[Option<Seat>]) -> Option<usize>
    requires { length second.now ≡ length first.now }
    ensures { IsFirstPlace first.now second.now result }
{
    let count = first.len();
    for at in 0..count {
        if first[at] != second[at] {
            return Some(at);
        }
    }
    None
}

/// The first row of a stranger so far, once this row is looked through.
fn next_stranger(
    register: &Register,
    best: Option<AllotRow>,
    row: AllotRow,
    number: u16,
) -> Option<AllotRow>
    ensures { (rows rest : List AnyRow) → IsStranger number register.now.people rows
        (row ∷ rest) best → IsStranger number register.now.people rows rest result }
{
    if row.round != number || register.position(row.cand).is_some() {
        return best;
    }
    match best {
        Some(found) => {
            if row.cand.0 < found.cand.0 {
                Some(row)
            } else {
                best
            }
        }
        None => Some(row),
    }
}

/// The first difference among the people of the register.
fn difference_inside(
    register: &Register,
    kept: &[Option<Seat>],
    computed: &[Option<Seat>],
) -> Option<Difference>
    requires kept { length kept.now ≡ length register.now.people }
    requires computed { length computed.now ≡ length register.now.people }
    ensures { (rows : List AnyRow) (number : ℕ) → AreFound number register.now.people rows
        [] kept.now → IsComparisonOf (IsOfPeople register.now.people) (λ id.
        first_allot number id rows) (seat_along register.now.people computed.now) result }
{
    let people = register.people();
    let at = first_place(kept, computed)?;
    Some(Difference {
        cand: people[at].id,
        kept: kept[at],
        computed: computed[at],
    })
}

/// The first difference among all others, who have no computed seat.
fn difference_outside(register: &Register, rows: &[AllotRow], number: u16) -> Option<Difference>
    ensures { (seats : List (Option AnySeat)) → IsComparisonOf (IsOfNobody register.now.people)
        (λ id. first_allot number id rows.now) (seat_along register.now.people seats) result }
{
    let mut best: Option<AllotRow> = None;
    for row in rows {
        best = next_stranger(register, best, *row, number);
    }
    let row = best?;
    Some(Difference {
        cand: row.cand,
        kept: Some(Seat {
            prog: row.prog,
            step: row.step,
        }),
        computed: None,
    })
}

/// The first of two differences, of which one is of somebody in the register and the other is not.
fn earlier(
    register: &Register,
    inside: Option<Difference>,
    outside: Option<Difference>,
) -> Option<Difference>
    ensures { (first second : ℕ → Option AnySeat) → IsComparisonOf (IsOfPeople register.now.people)
        first second inside → IsComparisonOf (IsOfNobody register.now.people) first second outside
        → IsComparison first second result }
{
    let _people = register.people();
    match (inside, outside) {
        (Some(first), Some(second)) => {
            if first.cand.0 < second.cand.0 {
                Some(first)
            } else {
                Some(second)
            }
        }
        (Some(first), None) => Some(first),
        (None, second) => second,
    }
}

/// The first difference of the rows of a round and the seats that were computed along the register.
pub(crate) fn compare(
    alloc: Global,
    register: &Register,
    rows: &[AllotRow],
    number: u16,
    computed: &[Option<Seat>],
) -> Result<Option<Difference>, OutOfMemory>
    requires { length computed.now ≡ length register.now.people }
    ensures { IfOk result (λ found. IsComparison (λ id. first_allot number id rows.now)
        (seat_along register.now.people computed.now) found) }
{
    let kept = seats_in(alloc, register, rows, number)?;
    let inside = difference_inside(register, kept.as_slice(), computed);
    let outside = difference_outside(register, rows, number);
    Ok(earlier(register, inside, outside))
}
