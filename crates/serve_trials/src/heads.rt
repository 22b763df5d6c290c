// What held bytes come to: tables of messages with their answers from outside, and each cut at every byte.
use crate::messages::{joined, long_head, many_fields, repeated, with_body};
use http_wire::{Arrived, HeldMessage, held_message};
use httparse::spans::EMPTY_HEADER_SPAN;
use std::alloc::Global;

/// What held bytes come to: a status, or 200 with how many bytes the message takes, or 100 where more is wanted.
fn comes_to(held: &[u8]) -> (u16, usize) {
    let mut room = [EMPTY_HEADER_SPAN; 64];
    match held_message(held, &mut room) {
        Arrived::More => (100, 0),
        Arrived::Refused(status) => (status, 0),
        Arrived::Whole(message) => (200, message.len),
    }
}

/// Bytes, what they come to, and from how many of them on: so many a message takes, and so many the head that is refused.
const ANSWERS: [(&str, u16, usize); 43] = [
    ("", 100, 0),
    ("\r\n", 100, 0),
    ("\n\r\n\n", 100, 0),
    ("GET / HTTP/1.1\r\n", 100, 0),
    ("GET / HTTP/1.1\r\n\r", 100, 0),
    ("GET / HTTP/1.1\r\n\r\n", 200, 18),
    ("GET / HTTP/1.1\n\n", 200, 16),
    ("\r\n\nGET / HTTP/1.0\r\nHost: a\n\r\n", 200, 29),
    ("GET / HTTP/1.1\r\n\r\nGET / HTTP/1.1\r\n\r\n", 200, 18),
    ("HEAD /v1/state?x=1 HTTP/1.1\r\n\r\n", 200, 31),
    ("GET / HTTP/1.1\r\nContent-Length: 3\r\n\r\nab", 100, 0),
    ("GET / HTTP/1.1\r\nContent-Length: 3\r\n\r\nabc", 200, 40),
    ("GET / HTTP/1.1\r\nContent-Length: 3\r\n\r\nabcd", 200, 40),
    ("POST / HTTP/1.1\r\nContent-Length: 0\r\n\r\n", 200, 38),
    ("POST / HTTP/1.1\r\nCONTENT-length:  2  \r\n\r\n{}", 200, 43),
    (
        "POST / HTTP/1.1\r\nContent-Length: 000000000000000002\r\n\r\n{}",
        200,
        57,
    ),
    (
        "POST / HTTP/1.1\r\nContent-Length: 0000000000000000002\r\n\r\n{}",
        400,
        56,
    ),
    (
        "POST / HTTP/1.1\r\nContent-Length: 2\r\nContent-Length: 02\r\n\r\n{}",
        200,
        60,
    ),
    (
        "POST / HTTP/1.1\r\nContent-Length: 50\r\nContent-Length: 050\r\n\r\n",
        100,
        0,
    ),
    (
        "POST / HTTP/1.1\r\nContent-Length: 50\r\nContent-Length: 51\r\n\r\n",
        400,
        59,
    ),
    (
        "POST / HTTP/1.1\r\nContent-Length: 2\r\nContent-Length: a\r\n\r\n",
        400,
        57,
    ),
    (
        "POST / HTTP/1.1\r\nContent-Length: a\r\nContent-Length: 2\r\n\r\n",
        400,
        57,
    ),
    ("POST / HTTP/1.1\r\nContent-Length:\r\n\r\n", 400, 36),
    ("POST / HTTP/1.1\r\nContent-Length: +2\r\n\r\n", 400, 39),
    ("POST / HTTP/1.1\r\nContent-Length: 2, 2\r\n\r\n", 400, 41),
    ("GET / HTTP/1.1\r\nContent-Length: -1\r\n\r\n", 400, 38),
    ("POST / HTTP/1.1\r\nContent-Length: 4096\r\n\r\n", 100, 0),
    ("POST / HTTP/1.1\r\nContent-Length: 4097\r\n\r\n", 413, 41),
    (
        "POST / HTTP/1.1\r\nContent-Length: 999999999999999999\r\n\r\n",
        413,
        55,
    ),
    ("GET / HTTP/1.1\r\nContent-Length: 4097\r\n\r\n", 413, 40),
    ("POST / HTTP/1.1\r\n\r\n", 411, 19),
    ("post / HTTP/1.1\r\n\r\n", 200, 19),
    ("PUT / HTTP/1.1\r\n\r\n", 200, 18),
    (
        "POST / HTTP/1.1\r\nTransfer-Encoding: chunked\r\n\r\n",
        501,
        47,
    ),
    (
        "GET / HTTP/1.1\r\ntransfer-encoding: identity\r\n\r\n",
        501,
        47,
    ),
    (
        "POST / HTTP/1.1\r\nTransfer-Encoding: chunked\r\nContent-Length: a\r\n\r\n",
        501,
        66,
    ),
    ("GET / HTTP/1.2\r\n\r\n", 400, 18),
    ("GET / HTTP/2.0\r\n\r\n", 400, 18),
    ("GET  / HTTP/1.1\r\n\r\n", 400, 19),
    ("GET / HTTP/1.1\r\nno colon\r\n\r\n", 400, 28),
    ("GET / HTTP/1.1\r\nName : a\r\n\r\n", 400, 28),
    ("no request\n", 100, 0),
    ("no request\n\n", 400, 12),
];

/// What bytes come to from so many of them on.
fn settled(status: u16, point: usize) -> (u16, usize) {
    if status == 200 {
        (200, point)
    } else {
        (status, 0)
    }
}

/// Whether each cut of the bytes comes to what it should: before so many of them more is wanted, and from there on the answer stays
/// the same.
fn settles_at(bytes: &[u8], status: u16, point: usize) -> bool {
    for end in 0..bytes.len() {
        let (held, _) = bytes.split_at(end);
        let expected = if end < point {
            (100, 0)
        } else {
            settled(status, point)
        };
        if comes_to(held) != expected {
            return false;
        }
    }
    comes_to(bytes) == settled(status, point)
}

/// Whether all of them come to what they should, wherever they are cut.
fn all_settle() -> bool {
    for (bytes, status, point) in ANSWERS {
        if !settles_at(bytes.as_bytes(), status, point) {
            return false;
        }
    }
    true
}

#[test]
fn messages_are_told_wherever_they_are_cut(rt: HostRuntime) {
    assert!(rt; all_settle());
}

/// Whether each cut comes to what it should, of bytes for which there was memory, with some before them.
fn settles(alloc: Global, first: &[u8], bytes: Option<Vec<u8>>, status: u16, point: usize) -> bool {
    let Some(bytes) = bytes else {
        return false;
    };
    match joined(alloc, &[first, bytes.as_slice()]) {
        Some(all) => settles_at(all.as_slice(), status, point),
        None => false,
    }
}

/// Empty lines, how long the head after them is, and what both come to.
const LONG_HEADS: [(&str, usize, u16); 4] = [
    ("", 8192, 200),
    ("", 8193, 431),
    ("\r\n", 8190, 200),
    ("\r\n", 8191, 431),
];

/// Whether a head has at most 8,192 bytes.
fn long_heads_settle(alloc: Global) -> bool {
    for (first, len, status) in LONG_HEADS {
        let head = long_head(alloc, len);
        if !settles(alloc, first.as_bytes(), head, status, 8192) {
            return false;
        }
    }
    true
}

/// Whether a head has at most 64 fields.
fn many_fields_settle(alloc: Global) -> bool {
    settles(alloc, b"", many_fields(alloc, 64), 200, 410)
        && settles(alloc, b"", many_fields(alloc, 65), 400, 416)
}

/// Whether a body of 4,096 bytes is read whole, and what follows it waits.
fn the_longest_body_settles(alloc: Global) -> bool {
    let head = b"POST / HTTP/1.1\r\nContent-Length: 4096\r\n\r\n";
    let bytes = repeated(alloc, head, b"x", 4100);
    settles(alloc, b"", bytes, 200, 4137)
}

/// A message that follows a head of 8,192 bytes is not looked at.
fn waits_behind_a_head(alloc: Global) -> bool {
    match long_head(alloc, 8192) {
        Some(head) => {
            let next = joined(alloc, &[b"POST / HTTP/1.1\r\n\r\n".as_slice()]);
            settles(alloc, head.as_slice(), next, 200, 8192)
        }
        None => false,
    }
}

/// A message that follows a body is not looked at.
fn waits_behind_a_body(alloc: Global) -> bool {
    match with_body(alloc, "/v1/cut", b"{}") {
        Some(message) => {
            let next = long_head(alloc, 8193);
            settles(alloc, message.as_slice(), next, 200, 49)
        }
        None => false,
    }
}

/// Whether the greatest messages come to what they should, also with others behind them.
fn limits_settle(alloc: Global) -> bool {
    long_heads_settle(alloc)
        && many_fields_settle(alloc)
        && the_longest_body_settles(alloc)
        && waits_behind_a_head(alloc)
        && waits_behind_a_body(alloc)
}

#[test]
fn heads_and_bodies_have_their_limits(rt: HostRuntime) {
    assert!(rt; limits_settle(rt.alloc()));
}

/// A message with empty lines before it and bytes behind it, and two fields of one name.
const MESSAGE: &[u8] =
    b"\r\nPOST /v1/cut?a HTTP/1.1\r\nX-Office-Token: \t one \r\nx-office-token: two\r\nContent-Length: 2\r\n\r\n{}GET";

/// Whether the parts of that message are as they stand there.
fn has_parts(message: &HeldMessage<'_>) -> bool {
    message.method == b"POST".as_slice()
        && message.target == b"/v1/cut?a".as_slice()
        && message.minor == 1
        && message.body == b"{}".as_slice()
        && !message.closes()
}

/// Whether its fields are.
fn has_fields(message: &HeldMessage<'_>) -> bool {
    message.fields.first(b"X-OFFICE-TOKEN") == Some(b"one".as_slice())
        && message.fields.first(b"X-Office").is_none()
        && message.fields.has(b"content-length")
        && !message.fields.has(b"host")
}

/// Returns whether its parts and its fields are read.
fn is_told() -> bool {
    let mut room = [EMPTY_HEADER_SPAN; 64];
    match held_message(MESSAGE, &mut room) {
        Arrived::Whole(message) => has_parts(&message) && has_fields(&message),
        _ => false,
    }
}

/// The first line and the fields of heads, and whether the connection closes after them.
const CLOSINGS: [(&str, bool); 10] = [
    ("GET / HTTP/1.1\r\n\r\n", false),
    ("GET / HTTP/1.0\r\n\r\n", true),
    ("GET / HTTP/1.0\r\nConnection: keep-alive\r\n\r\n", true),
    ("GET / HTTP/1.1\r\nConnection: close\r\n\r\n", true),
    (
        "GET / HTTP/1.1\r\nCONNECTION: Keep-Alive,\t CLOSE \r\n\r\n",
        true,
    ),
    ("GET / HTTP/1.1\r\nConnection: Close, TE\r\n\r\n", true),
    (
        "GET / HTTP/1.1\r\nConnection: keep-alive\r\nConnection: close\r\n\r\n",
        true,
    ),
    ("GET / HTTP/1.1\r\nConnection: closed\r\n\r\n", false),
    ("GET / HTTP/1.1\r\nConnection: not close\r\n\r\n", false),
    ("GET / HTTP/1.1\r\nHost: close\r\n\r\n", false),
];

/// Whether bytes are a message after which the connection closes. None where they are none.
fn closes(bytes: &[u8]) -> Option<bool> {
    let mut room = [EMPTY_HEADER_SPAN; 64];
    match held_message(bytes, &mut room) {
        Arrived::Whole(message) => Some(message.closes()),
        _ => None,
    }
}

/// Returns whether each of them is read as closing the connection or not.
fn closings_are_told() -> bool {
    for (bytes, expected) in CLOSINGS {
        if closes(bytes.as_bytes()) != Some(expected) {
            return false;
        }
    }
    true
}

#[test]
fn the_parts_of_a_message_are_told(rt: HostRuntime) {
    assert!(rt; is_told() && closings_are_told());
}
