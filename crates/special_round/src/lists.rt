// Lists of those without an admission.
ghost use Rattle.std.specs.Prelude.{◌≡◌, ◌<◌, ◌+◌, List, IfOk, map};
ghost use Rattle.office_base.specs.Lists.{Pairwise};
ghost use Rattle.office_base.specs.Limits.{last_id};
ghost use Rattle.office_text.specs.Number.{number_within};
ghost use Rattle.section_rows.specs.Rows.{field, rows_of};
ghost use Rattle.kept_rows.specs.declared.rows.AllotRow.{AllotRow};
ghost use Rattle.special_round.specs.Season.{first_admitted, is_admitted};

use crate::laws::ids_rise;
use kept_rows::AllotRow;
use office_base::OutOfMemory;
use office_base::limits::LAST_ID;
use office_text::read_number;
use section_rows::Rows;
use std::alloc::Global;

// The ids of rows, in their order.
fn ids_of(alloc: Global, rows: &[AllotRow]) -> Result<Vec<u32>, OutOfMemory>
    requires { Pairwise (λ a b. a.cand.0 < b.cand.0) rows.now }
    ensures ids { IfOk result (λ ids. ids.items ≡ map (λ row. row.cand.0) rows.now) }
    ensures rising { IfOk result (λ ids. Pairwise (λ a b. a < b) ids.items) }
{
    ids_rise();
    let mut ids = Vec::with_capacity(alloc, rows.len())?;
    for row in rows {
        ids.push(row.cand.0)?;
    }
    Ok(ids)
}

// Whether a row of lists is of a candidate with one of these ids, which rise.
fn is_of_admitted(ids: &[u32], row: &Rows<'_>) -> bool
    requires { Pairwise (λ a b. a < b) ids.now }
    ensures { (finals : List AllotRow) → ids.now ≡ map (λ row. row.cand.0) finals
        → result ≡ is_admitted (number_within 1 last_id (field row.now.row 0)) finals }
{
    match read_number(row.field(0), 1, LAST_ID) {
        Some(id) => ids.binary_search(&id).is_ok(),
        None => false,
    }
}

/// The number of the first row of lists, counted from 1 with the header, whose candidate has one of these final rows.
pub(crate) fn first_of_admitted(
    alloc: Global,
    finals: &[AllotRow],
    lists: &[u8],
) -> Result<Option<u32>, OutOfMemory>
    requires { Pairwise (λ a b. a.cand.0 < b.cand.0) finals.now }
    ensures { IfOk result (λ first. first ≡ first_admitted finals.now (rows_of lists.now)) }
{
    let ids = ids_of(alloc, finals)?;
    let mut rows = Rows::new(alloc, lists);
    if !rows.advance()? {
        return Ok(None);
    }
    let mut number: u32 = 1;
    'rows: while rows.advance()? {
        let Some(next) = number.checked_add(1) else {
            return Err(OutOfMemory);
        };
        number = next;
        if is_of_admitted(ids.as_slice(), &rows) {
            return Ok(Some(number));
        }
    }
    Ok(None)
}
