// Sessions over an office: how they end, and what they leave.
ghost use Rattle.std.specs.Prelude.{◌≡◌, []};

use crate::opened::{
    AT_FIRST, CUT, LEAVE, LEFT, PUBLISHED, RAISE, RAISED, STATE, joined, link, opened, repeated,
};
use keeper_mem::MemKeeper;
use office_http::{Buffers, OfficeCounter, OpenGate, SessionEnd, session};
use office_links::MemLink;
use round_cut::Office;
use std::alloc::Global;

const STATE_AND_CLOSE: &str = "GET /v1/state HTTP/1.1\r\nConnection: close\r\n\r\n";

const CLOSED: &str =
    "HTTP/1.1 200 OK\r\nContent-Type: application/json\r\nContent-Length: 50\r\nConnection: close\r\n\r\n{\"now\":0,\"published\":0,\"reply\":\"state\",\"rounds\":2}";

const NO_KEEPER: &str =
    "HTTP/1.1 503 Service Unavailable\r\nContent-Type: application/json\r\nContent-Length: 18\r\n\r\n{\"fault\":\"keeper\"}";

/// How a session with an office, new as it is, on this link ends, and how many entries the office has then.
fn ended(
    alloc: Global,
    mut office: Office<MemKeeper>,
    link: &mut MemLink,
    buffers: &mut Buffers,
) -> (SessionEnd, usize)
    requires { office.entries ≡ [] }
{
    let mut counter = OfficeCounter::new(&mut office);
    let end = session(alloc, &mut counter, link, buffers, &OpenGate, 0);
    let entries = office.entries().len();
    let _keeper = office.into_keeper();
    (end, entries)
}

/// The numbers of the calls of the keeper and of the link that fail, 0 for none.
type Failing = (u32, u32);

/// Whether a session over a new office on these bytes ends so, with these bytes written and so many entries.
fn held(
    alloc: Global,
    buffers: &mut Buffers,
    bytes: &[u8],
    failing: Failing,
    end: SessionEnd,
    written: &[u8],
    entries: usize,
) -> bool {
    let (keeper, call) = failing;
    let Some(mut link) = link(alloc, bytes, call) else {
        return false;
    };
    match opened(alloc, keeper) {
        Some(office) => {
            ended(alloc, office, &mut link, buffers) == (end, entries) && link.bytes() == written
        }
        None => false,
    }
}

/// What is sent, which call of the link fails, how the session ends, and what is written.
const ENDS: [(&str, u32, SessionEnd, &str); 12] = [
    ("", 0, SessionEnd::Ended, ""),
    (STATE, 0, SessionEnd::Ended, AT_FIRST),
    ("GET /v1/st", 0, SessionEnd::Torn, ""),
    ("\r\n", 0, SessionEnd::Torn, ""),
    (STATE_AND_CLOSE, 0, SessionEnd::Ended, CLOSED),
    // four reads, a write, and the read that finds the end
    (STATE, 1, SessionEnd::LinkFault, ""),
    (STATE, 2, SessionEnd::LinkFault, ""),
    (STATE, 3, SessionEnd::LinkFault, ""),
    (STATE, 4, SessionEnd::LinkFault, ""),
    (STATE, 5, SessionEnd::LinkFault, ""),
    (STATE, 6, SessionEnd::LinkFault, AT_FIRST),
    (STATE, 7, SessionEnd::Ended, AT_FIRST),
];

/// Whether each of them ends so, with the same buffers, whatever the one before left in them.
fn all_end(alloc: Global, buffers: &mut Buffers) -> bool {
    for (bytes, call, end, written) in ENDS {
        if !held(
            alloc,
            buffers,
            bytes.as_bytes(),
            (0, call),
            end,
            written.as_bytes(),
            0,
        ) {
            return false;
        }
    }
    true
}

/// Whether so many messages, of which the last one may close, end so, with so many replies and the one that closes.
fn many_end(
    alloc: Global,
    buffers: &mut Buffers,
    count: usize,
    last: &str,
    end: SessionEnd,
    replies: usize,
) -> bool {
    let bytes = repeated(alloc, STATE, count, last);
    let written = repeated(alloc, AT_FIRST, replies, CLOSED);
    match (bytes, written) {
        (Some(bytes), Some(written)) => {
            held(
                alloc,
                buffers,
                bytes.as_slice(),
                (0, 0),
                end,
                written.as_slice(),
                0,
            )
        }
        _ => false,
    }
}

/// Whether the hundredth reply is the last, also where it was asked to close, and the hundred and first message gets none.
fn limits_are_reached(alloc: Global, buffers: &mut Buffers) -> bool {
    many_end(alloc, buffers, 98, STATE_AND_CLOSE, SessionEnd::Ended, 98)
        && many_end(
            alloc,
            buffers,
            99,
            STATE_AND_CLOSE,
            SessionEnd::LimitReached,
            99,
        )
        && many_end(alloc, buffers, 100, "", SessionEnd::LimitReached, 99)
        && many_end(alloc, buffers, 101, "", SessionEnd::LimitReached, 99)
}

#[test]
fn sessions_end_as_they_say(rt: HostRuntime) {
    let alloc = rt.alloc();
    let Ok(mut buffers) = Buffers::new(alloc) else {
        assert!(rt; false);
        return;
    };
    assert!(rt; all_end(alloc, &mut buffers));
    assert!(rt; limits_are_reached(alloc, &mut buffers));
}

/// What is asked of a keeper that fails at a call: each twice.
const ASKED: [&str; 6] = [LEAVE, LEAVE, RAISE, RAISE, CUT, CUT];

/// The call of the keeper that fails, and the replies. Three calls begin the office, and each of these is one more.
const KEPT: [(u32, [&str; 6]); 5] = [
    (0, [LEFT, LEFT, RAISED, RAISED, PUBLISHED, PUBLISHED]),
    (4, [NO_KEEPER, LEFT, RAISED, RAISED, PUBLISHED, PUBLISHED]),
    (5, [LEFT, LEFT, NO_KEEPER, RAISED, PUBLISHED, PUBLISHED]),
    (6, [LEFT, LEFT, RAISED, RAISED, NO_KEEPER, PUBLISHED]),
    (7, [LEFT, LEFT, RAISED, RAISED, PUBLISHED, PUBLISHED]),
];

/// Whether a keeper whose call of this number fails has these replies, with three entries after them.
fn keeps(alloc: Global, buffers: &mut Buffers, call: u32, replies: &[&str]) -> bool {
    match (joined(alloc, &ASKED), joined(alloc, replies)) {
        (Some(bytes), Some(written)) => {
            held(
                alloc,
                buffers,
                bytes.as_slice(),
                (call, 0),
                SessionEnd::Ended,
                written.as_slice(),
                3,
            )
        }
        _ => false,
    }
}

#[test]
fn a_keeper_that_fails_once_is_told_and_asked_again(rt: HostRuntime) {
    let alloc = rt.alloc();
    let Ok(mut buffers) = Buffers::new(alloc) else {
        assert!(rt; false);
        return;
    };
    for (call, replies) in KEPT {
        assert!(rt; keeps(alloc, &mut buffers, call, &replies), "{call}");
    }
}
