// The desk is tried.
ghost use Rattle.std.specs.Prelude.{◌≡◌, ◌≤◌};
ghost use Rattle.std.specs.Thread.{IsSync};
ghost use Rattle.office_desk.specs.Words.{belongs, left_of, shares_of};

use crate::book::{Book, Row};
use crate::rows::{count_rows, write, write_all};
use office_base::OutOfMemory;
use office_desk::{Desk, Pass};
use std::sync::Wait;
use std::test::Fail;
use std::thread::{Threads, join};

// A pass that writes so many rows, and is given back.
fn written<W: Wait>(
    rt: &W,
    desk: &Desk<Book>,
    pass: Pass<Book>,
    by: u64,
    count: u64,
) -> (Pass<Book>, Result<(), OutOfMemory>)
    requires desk { belongs desk.now pass }
    requires left { count ≤ left_of pass }
    ensures { belongs desk.now result.0 }
{
    let mut pass = pass;
    let done = write_all(rt, desk, &mut pass, by, count);
    (pass, done)
}

// Two threads write a thousand rows each.
fn write_both<R: Threads + Wait + Sync>(
    rt: &R,
    desk: &Desk<Book>,
    one: Pass<Book>,
    two: Pass<Book>,
) -> (Pass<Book>, Pass<Book>, bool)
    requires desk { (belongs desk.now one) × (belongs desk.now two) }
    requires left { (1000 ≤ left_of one) × (1000 ≤ left_of two) }
    ensures { (belongs desk.now result.0) × (belongs desk.now result.1) }
{
    let (one, two) = join(
        rt,
        || -> (Pass<Book>, Result<(), OutOfMemory>)
            requires { IsSync R.row × (belongs desk.now one) × (1000 ≤ left_of one) }
            ensures { belongs desk.entry.now result.0 }
        { written(rt, desk, one, 1, 1000) },
        || -> (Pass<Book>, Result<(), OutOfMemory>)
            requires { IsSync R.row × (belongs desk.now two) × (1000 ≤ left_of two) }
            ensures { belongs desk.entry.now result.0 }
        { written(rt, desk, two, 2, 1000) },
    );
    (one.0, two.0, one.1.is_ok() && two.1.is_ok())
}

// Whether the rows of this writer are the first so many, in their order.
fn in_order(rows: &[Row], by: u64, count: u64) -> bool {
    let mut next = 0;
    for row in rows {
        if row.by == by {
            if row.nth != next || next >= count {
                return false;
            }
            next += 1;
        }
    }
    next == count
}

#[test]
fn a_pass_reads_what_another_wrote(rt: HostRuntime) -> Result<(), Fail> {
    let Ok((desk, mut first)) = Desk::begin(rt.alloc(), Book::new(rt.alloc(), 7)) else {
        assert!(rt; false);
        return Ok(());
    };
    let wrote = write(&rt, &desk, &mut first, 1, 0).is_ok();
    let Ok(mut second) = first.split(&desk, 10) else {
        unreachable!()
    };
    let left = (first.left(), second.left(), first.is_whole());
    let read = count_rows(&rt, &desk, &mut second);
    let after = second.left();
    first.join(&desk, second);
    assert!(rt; wrote && left == ((1 << 40) - 11, 10, false) && read == 1 && after == 9);
    assert!(rt; first.left() == (1 << 40) - 2);
    assert!(rt; first.is_whole());
    let book = desk.close(first);
    let rows = book.rows.as_slice();
    assert!(rt; rows.len() == 1 && rows[0].number == 1 && rows[0].by == 1 && rows[0].nth == 0);
    Ok(())
}

#[test]
fn two_threads_write_in_turns(rt: HostRuntime) -> Result<(), Fail> {
    let Ok((desk, mut first)) = Desk::begin(rt.alloc(), Book::new(rt.alloc(), 7)) else {
        assert!(rt; false);
        return Ok(());
    };
    let Ok(one) = first.split(&desk, 1000) else {
        unreachable!()
    };
    let Ok(two) = first.split(&desk, 1000) else {
        unreachable!()
    };
    let (one, two, done) = write_both(&rt, &desk, one, two);
    first.join(&desk, one);
    first.join(&desk, two);
    assert!(rt; done);
    assert!(rt; first.is_whole());
    let book = desk.close(first);
    let rows = book.rows.as_slice();
    assert!(rt; rows.len() == 2000 && in_order(rows, 1, 1000) && in_order(rows, 2, 1000));
    Ok(())
}
