// Callers who use the book in turns.
ghost use Rattle.std.specs.Prelude.{◌≡◌, ◌≤◌, ◌<◌, ◌+◌, ◌∷◌, [], ◌++◌, ℕ, length, map, IfOk, OnOk, OnErr};
ghost use Rattle.office_base.specs.Numbered.{last_of_numbers};
ghost use Rattle.serve_trials.specs.Rows.{row};
ghost use Rattle.office_desk.specs.Words.{belongs, left_of, shares_of, seen_of, own_of};

use crate::book::{Book, Row};
use office_base::OutOfMemory;
use office_desk::{Desk, Pass};
use std::sync::Wait;

/// Writes one row in a turn, and answers the row's number. It is the pass's own entry, and the last that the pass has seen.
pub fn write<W: Wait>(
    rt: &W,
    desk: &Desk<Book>,
    pass: &mut Pass<Book>,
    by: u64,
    nth: u64,
) -> Result<u64, OutOfMemory>
    requires desk { belongs desk.now pass.old }
    requires left { 1 ≤ left_of pass.old }
    ensures desk { belongs desk.now pass.new }
    ensures left { left_of pass.old ≡ left_of pass.new + 1 }
    ensures shares { shares_of pass.new ≡ shares_of pass.old }
    ensures own { IfOk result (λ n. own_of pass.new ≡ own_of pass.old ++ row n by nth ∷ []) }
    ensures refused { OnErr result (own_of pass.new ≡ own_of pass.old) }
{
    desk.turn(
        rt,
        pass,
        |book: &mut Book, number: u64| -> Result<u64, OutOfMemory>
            requires { last_of_numbers (map (λ r. r.number) book.old.rows.items) < number }
            ensures { (book.new.name ≡ book.old.name) × IfOk result (λ n. (n ≡ number)
                × (book.new.rows.items ≡ book.old.rows.items ++ row number by nth ∷ []))
                × OnErr result (book.new.rows.items ≡ book.old.rows.items) }
        {
            book.put(Row { number, by, nth })?;
            Ok(number)
        },
    )
}

/// How many rows the book has, counted in a turn: those that the pass has seen then.
pub fn count_rows<W: Wait>(rt: &W, desk: &Desk<Book>, pass: &mut Pass<Book>) -> usize
    requires desk { belongs desk.now pass.old }
    requires left { 1 ≤ left_of pass.old }
    ensures desk { belongs desk.now pass.new }
    ensures left { left_of pass.old ≡ left_of pass.new + 1 }
    ensures shares { shares_of pass.new ≡ shares_of pass.old }
    ensures counted { result ≡ length (seen_of pass.new) }
    ensures own { own_of pass.new ≡ own_of pass.old }
{
    desk.turn(
        rt,
        pass,
        |book: &mut Book, number: u64| -> usize
            requires { last_of_numbers (map (λ r. r.number) book.old.rows.items) < number }
            ensures { (book.new.name ≡ book.old.name) × (book.new.rows.items ≡ book.old.rows.items)
                × (result ≡ length book.old.rows.items) }
        {
            let _turn = number;
            book.rows.len()
        },
    )
}

/// Writes so many rows, one in each turn.
pub fn write_all<W: Wait>(
    rt: &W,
    desk: &Desk<Book>,
    pass: &mut Pass<Book>,
    by: u64,
    count: u64,
) -> Result<(), OutOfMemory>
    requires desk { belongs desk.now pass.old }
    requires left { count ≤ left_of pass.old }
    ensures desk { belongs desk.now pass.new }
{
    for nth in 0..count {
        write(rt, desk, pass, by, nth)?;
    }
    Ok(())
}
