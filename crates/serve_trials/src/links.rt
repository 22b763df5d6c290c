// Links and doors in memory: short pieces, a link that fails at each of its calls in turn, and a door that takes its links back.
use office_base::Failed;
use office_links::{Door, Link, MemDoor, MemLink, write_link};
use std::alloc::Global;

/// What is read in the trials.
const TEXT: &str = "abcdefghijk";

/// Reads a link to its end, and writes all that was read. It answers whether the end came.
fn echo<L: Link>(link: &mut L) -> Result<bool, Failed> {
    let mut buffer = [0; 8];
    for _ in 0..100u32 {
        let count = link.read(&mut buffer)?;
        if count == 0 {
            return Ok(true);
        }
        let (got, _) = buffer.split_at(count);
        write_link(link, got)?;
    }
    Ok(false)
}

/// A link that gives the text.
fn text_link(alloc: Global, piece: usize, fail_at: &[u32]) -> Option<MemLink> {
    MemLink::new(alloc, TEXT.as_bytes(), piece.max(1), 64, fail_at).ok()
}

/// Whether a link that is echoed comes to this, and has these bytes written then.
fn echoes(link: &mut MemLink, came: Result<bool, Failed>, written: &str) -> bool {
    echo(link) == came && link.bytes() == written.as_bytes()
}

/// Whether a link without a failure gives the text in pieces of this length.
fn is_read_in(alloc: Global, piece: usize) -> bool {
    match text_link(alloc, piece, &[]) {
        Some(mut link) => echoes(&mut link, Ok(true), TEXT),
        None => false,
    }
}

/// Whether it gives the text in pieces of some lengths.
fn is_read_in_pieces(alloc: Global) -> bool {
    for piece in [1, 2, 3, 7, 8, 100] {
        if !is_read_in(alloc, piece) {
            return false;
        }
    }
    true
}

/// What a link wrote before the call that fails, and after it went on: a piece that was read and not written is lost.
const FAILURES: [(u32, &str, &str); 9] = [
    (1, "", TEXT),
    (2, "", "defghijk"),
    (3, "abc", TEXT),
    (4, "abc", "abcghijk"),
    (5, "abcdef", TEXT),
    (6, "abcdef", "abcdefjk"),
    (7, "abcdefghi", TEXT),
    (8, "abcdefghi", "abcdefghi"),
    (9, TEXT, TEXT),
];

/// Whether a link that fails at this call has these bytes written then, and these after it went on.
fn fails_once(alloc: Global, call: u32, before: &str, after: &str) -> bool {
    match text_link(alloc, 3, &[call]) {
        Some(mut link) => {
            echoes(&mut link, Err(Failed), before) && echoes(&mut link, Ok(true), after)
        }
        None => false,
    }
}

/// Whether a link fails at each of its calls in turn.
fn fails_at_each(alloc: Global) -> bool {
    for (call, before, after) in FAILURES {
        if !fails_once(alloc, call, before, after) {
            return false;
        }
    }
    true
}

/// Whether a link does not fail at a call that never comes.
fn never_fails(alloc: Global) -> bool {
    match text_link(alloc, 3, &[10]) {
        Some(mut link) => echoes(&mut link, Ok(true), TEXT),
        None => false,
    }
}

/// Whether a link with room for four bytes takes four of six, fails there, takes nothing more and still reads.
fn fails_without_room(link: &mut MemLink) -> bool {
    let mut buffer = [0; 8];
    write_link(link, b"abcdef") == Err(Failed)
        && write_link(link, b"") == Ok(())
        && link.bytes() == b"abcd".as_slice()
        && link.read(&mut buffer) == Ok(4)
}

/// Whether a link with room for four bytes does so.
fn has_its_room(alloc: Global) -> bool {
    match MemLink::new(alloc, TEXT.as_bytes(), 4, 4, &[]) {
        Ok(mut link) => fails_without_room(&mut link),
        Err(_) => false,
    }
}

/// Whether links read, write and fail as they should.
fn links_are_right(alloc: Global) -> bool {
    is_read_in_pieces(alloc) && fails_at_each(alloc) && never_fails(alloc) && has_its_room(alloc)
}

#[test]
fn links_are_read_and_written(rt: HostRuntime) {
    assert!(rt; links_are_right(rt.alloc()));
}

/// A door of three links, of which the second accept fails.
fn door_of_three(alloc: Global) -> Option<MemDoor> {
    let mut links = Vec::new(alloc);
    for text in ["one", "two", "three"] {
        let link = MemLink::new(alloc, text.as_bytes(), 2, 16, &[]).ok()?;
        links.push(link).ok()?;
    }
    MemDoor::new(alloc, links, &[2]).ok()
}

/// It takes what may go to another thread.
fn may_move<T: Send>(_: &T) -> bool {
    true
}

/// Echoes each connection of a door, one after another, and says how many there were.
fn echo_all<D: Door>(door: &mut D) -> Result<u32, Failed> {
    let mut count = 0;
    for _ in 0..10u32 {
        let Some(mut conn) = door.accept()? else {
            return Ok(count);
        };
        let done = echo(&mut conn);
        door.give_back(conn);
        done?;
        count = count.saturating_add(1);
    }
    Ok(count)
}

/// Whether the links given back have these texts written, as far as both go.
fn have_written(door: &MemDoor, texts: &[&str]) -> bool {
    door.returned()
        .iter()
        .zip(texts.iter())
        .all(|(link, text)| link.bytes() == text.as_bytes())
}

/// Whether a door gives its first link, fails, gives the two others, and has no more; and has all three back in their order.
fn gives_and_takes(door: &mut MemDoor) -> bool {
    may_move(door)
        && echo_all(door) == Err(Failed)
        && door.returned().len() == 1
        && echo_all(door) == Ok(2)
        && echo_all(door) == Ok(0)
        && door.returned().len() == 3
        && have_written(door, &["one", "two", "three"])
}

/// Whether a door of three links does so.
fn a_door_gives_and_takes(alloc: Global) -> bool {
    match door_of_three(alloc) {
        Some(mut door) => gives_and_takes(&mut door),
        None => false,
    }
}

/// Whether two links that are given, with a failure between them, come back in the other order.
fn come_back_otherwise(door: &mut MemDoor) -> bool {
    let Ok(Some(mut first)) = door.accept() else {
        return false;
    };
    let is_failed = door.accept().is_err();
    let Ok(Some(mut second)) = door.accept() else {
        return false;
    };
    let is_echoed = echo(&mut second) == Ok(true) && echo(&mut first) == Ok(true);
    door.give_back(second);
    door.give_back(first);
    is_failed && is_echoed && have_written(door, &["two", "one"])
}

/// Whether two of a door of three links do so.
fn links_come_back_in_any_order(alloc: Global) -> bool {
    match door_of_three(alloc) {
        Some(mut door) => come_back_otherwise(&mut door),
        None => false,
    }
}

#[test]
fn a_door_gives_its_links_and_takes_them_back(rt: HostRuntime) {
    let alloc = rt.alloc();
    assert!(rt; a_door_gives_and_takes(alloc) && links_come_back_in_any_order(alloc));
}
