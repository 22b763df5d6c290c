// The seats that a round's text gives, along the register.
ghost use Rattle.std.specs.Prelude.{◌≡◌, ◌∷◌, ◌++◌, [], IfOk, List, length};
ghost use Rattle.kept_rows.specs.declared.rows.AllotRow.{AllotRow as AnyRow};
ghost use Rattle.audit_rules.specs.Papers.{seats_told};

use kept_rows::AllotRow;
use office_base::{OutOfMemory, Seat};
use rank_lists::Register;
use std::alloc::Global;

/// Gives the candidate of a row its seat, where the candidate has none.
fn put_row(register: &Register, seats: &mut [Option<Seat>], row: &AllotRow)
    requires { length seats.old ≡ length register.now.people }
    ensures full { length seats.new ≡ length register.now.people }
    ensures told { (rows : List AnyRow) → seats.old ≡ seats_told rows register.now.people
        → seats.new ≡ seats_told (rows ++ row.now ∷ []) register.now.people }
{
    let _ = register.people();
    let Some(at) = register.position(row.cand) else {
        return;
    };
    let at = at as usize;
    seats[at] = seats[at].or(Some(Seat {
        prog: row.prog,
        step: row.step,
    }));
}

/// Returns the seats that rows give, along the register. Each candidate gets the seat of their first row.
/// Rows of others give none. Fails only when memory runs out.
pub fn seats_told(
    alloc: Global,
    register: &Register,
    rows: &[AllotRow],
) -> Result<Vec<Option<Seat>>, OutOfMemory>
    ensures { IfOk result (λ seats. seats.items ≡ seats_told rows.now register.now.people) }
{
    let mut seats = vec![in alloc; None; register.people().len()]?;
    for row in rows {
        put_row(register, &mut seats, row);
    }
    Ok(seats)
}
