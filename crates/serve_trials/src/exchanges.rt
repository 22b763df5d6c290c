// Connections from the bytes of their messages to the bytes of their replies, through links, heads, asks and replies together.
// In place of the real office there is one that knows candidate 2 alone.
use crate::messages::{joined, long_head, many_fields};
use crate::replies::{answer, refuse};
use http_asks::{Judged, Routes, judge, token};
use http_wire::{Arrived, HeldMessage, Outbox, held_message};
use httparse::spans::EMPTY_HEADER_SPAN;
use office_asks::Ask;
use office_base::{CandId, Choice};
use office_links::{Link, MemLink, write_link};
use std::alloc::Global;

/// The withdrawal that the office takes from candidate 2.
const WITHDRAWAL: Ask = Ask::Answer {
    cand: CandId(2),
    window: 0,
    turn: 1,
    choice: Choice::Withdraw,
};

/// The status and the body of what the office answers.
fn answered(token: Option<&[u8]>, ask: &Ask) -> (u16, &'static str) {
    let is_second = token == Some(b"tok00002".as_slice());
    if *ask == Ask::State {
        (200, r#"{"now":0,"published":0,"reply":"state","rounds":2}"#)
    } else if !is_second {
        (
            403,
            r#"{"name":"Denied","refused":3,"reply":"refused","rule":1}"#,
        )
    } else if *ask == WITHDRAWAL {
        (
            200,
            r#"{"cand":2,"choice":"withdraw","reply":"noted","turn":1,"window":0}"#,
        )
    } else {
        (
            403,
            r#"{"name":"Denied","refused":3,"reply":"refused","rule":3}"#,
        )
    }
}

/// What comes after the reply to held bytes.
enum Next {
    /// There is no reply yet.
    More,
    /// The connection goes on behind so many bytes.
    After(usize),
    /// It closes.
    Close,
}

/// Puts the reply to a message. None where there is no memory for it.
fn reply_to(
    alloc: Global,
    routes: &Routes,
    message: &HeldMessage<'_>,
    outbox: &mut Outbox,
) -> Option<Next> {
    let close = message.closes();
    let is_put = match judge(alloc, routes, message).ok()? {
        Judged::Refused { status, allow } => refuse(outbox, status, allow, close),
        Judged::Asked(ask) => {
            let (status, body) = answered(token(&message.fields), &ask);
            answer(outbox, status, body.as_bytes(), close)
        }
    };
    if close || !is_put {
        Some(Next::Close)
    } else {
        Some(Next::After(message.len))
    }
}

/// Puts the reply to held bytes, where they come to one. None where there is no memory for it.
fn reply_at(alloc: Global, routes: &Routes, held: &[u8], outbox: &mut Outbox) -> Option<Next> {
    let mut room = [EMPTY_HEADER_SPAN; 64];
    match held_message(held, &mut room) {
        Arrived::More => Some(Next::More),
        Arrived::Refused(status) => {
            refuse(outbox, status, None, true);
            Some(Next::Close)
        }
        Arrived::Whole(message) => reply_to(alloc, routes, &message, outbox),
    }
}

/// The bytes of a link that came, and how many of them were answered.
#[derive(Drop)]
struct Inbox {
    held: Vec<u8>,
    done: usize,
}

impl Inbox {
    /// The bytes that were not answered yet.
    fn rest(&self) -> &[u8] {
        self.held.as_slice().get(self.done..).unwrap_or(&[])
    }

    /// Reads once. It answers how many bytes came, None where the link failed or there is no memory.
    fn read(&mut self, link: &mut MemLink) -> Option<usize> {
        let mut buffer = [0; 64];
        let Ok(count) = link.read(&mut buffer) else {
            return None;
        };
        let (got, _) = buffer.split_at(count);
        self.held.extend_from_slice(got).ok()?;
        Some(count)
    }
}

/// Makes the next reply or the next read. It answers whether the connection goes on; None where it failed or there is no memory.
fn go_on(
    alloc: Global,
    routes: &Routes,
    inbox: &mut Inbox,
    outbox: &mut Outbox,
    link: &mut MemLink,
) -> Option<bool> {
    match reply_at(alloc, routes, inbox.rest(), outbox)? {
        Next::More => Some(inbox.read(link)? > 0),
        Next::After(len) => {
            inbox.done = inbox.done.saturating_add(len);
            write_link(link, outbox.bytes()).ok()?;
            Some(true)
        }
        Next::Close => {
            write_link(link, outbox.bytes()).ok()?;
            Some(false)
        }
    }
}

/// Replies to the messages of a connection until it closes or its bytes end. It answers whether that came.
fn converse(alloc: Global, link: &mut MemLink) -> Option<bool> {
    let routes = Routes::new(alloc).ok()?;
    let mut outbox = Outbox::new(alloc).ok()?;
    let mut inbox = Inbox {
        held: Vec::new(alloc),
        done: 0,
    };
    for _ in 0..20_000u32 {
        if !go_on(alloc, &routes, &mut inbox, &mut outbox, link)? {
            return Some(true);
        }
    }
    Some(false)
}

/// Whether a connection of these bytes, read in pieces of this length, gets these replies.
fn gets(alloc: Global, bytes: &[u8], piece: usize, replies: &[u8]) -> bool {
    let Ok(mut link) = MemLink::new(alloc, bytes, piece.max(1), 1024, &[]) else {
        return false;
    };
    converse(alloc, &mut link) == Some(true) && link.bytes() == replies
}

// The replies that come more than once.

const STATE: &str =
    "HTTP/1.1 200 OK\r\nContent-Type: application/json\r\nContent-Length: 50\r\n\r\n{\"now\":0,\"published\":0,\"reply\":\"state\",\"rounds\":2}";

const NOTED: &str =
    "HTTP/1.1 200 OK\r\nContent-Type: application/json\r\nContent-Length: 66\r\n\r\n{\"cand\":2,\"choice\":\"withdraw\",\"reply\":\"noted\",\"turn\":1,\"window\":0}";

const BAD: &str = "HTTP/1.1 400 Bad Request\r\nContent-Length: 0\r\n\r\n";

const BAD_AND_CLOSED: &str =
    "HTTP/1.1 400 Bad Request\r\nContent-Length: 0\r\nConnection: close\r\n\r\n";

const NOT_FOUND: &str = "HTTP/1.1 404 Not Found\r\nContent-Length: 0\r\n\r\n";

const GET_ONLY: &str = "HTTP/1.1 405 Method Not Allowed\r\nContent-Length: 0\r\nAllow: GET\r\n\r\n";

/// Messages, from how many of their bytes on they have a reply, and that reply.
const EXCHANGES: [(&str, usize, &str); 28] = [
    (
        "GET /v1/state HTTP/1.1\r\nHost: 127.0.0.1:8080\r\nUser-Agent: curl/8.5.0\r\nAccept: */*\r\n\r\n",
        85,
        STATE,
    ),
    ("\r\n\nGET /v1/state?x=1 HTTP/1.1\r\n\r\n", 33, STATE),
    (
        "GET /v1/state HTTP/1.1\nContent-Length: 3\n\n{\"a",
        45,
        STATE,
    ),
    (
        "POST /v1/answer HTTP/1.1\r\nX-Office-Token: tok00002\r\nContent-Length: 50\r\n\r\n{\"cand\":2,\"window\":0,\"turn\":1,\"choice\":\"withdraw\"}",
        124,
        NOTED,
    ),
    (
        "POST /v1/answer HTTP/1.1\r\nX-Office-Token: tok00002\r\nContent-Length: 000000000000000050\r\n\r\n{\"cand\":2,\"window\":0,\"turn\":1,\"choice\":\"withdraw\"}",
        140,
        NOTED,
    ),
    (
        "POST /v1/answer HTTP/1.1\r\nX-Office-Token: tok00002\r\nContent-Length: 0000000000000000050\r\n\r\n{\"cand\":2,\"window\":0,\"turn\":1,\"choice\":\"withdraw\"}",
        91,
        BAD_AND_CLOSED,
    ),
    (
        "POST /v1/answer HTTP/1.1\r\nX-Office-Token: tok00002\r\nContent-Length: 50\r\ncontent-length: 050\r\n\r\n{\"cand\":2,\"window\":0,\"turn\":1,\"choice\":\"withdraw\"}",
        145,
        NOTED,
    ),
    (
        "POST /v1/answer HTTP/1.1\r\nX-Office-Token: tok00002\r\nContent-Length: 50\r\nContent-Length: 51\r\n\r\n{\"cand\":2,\"window\":0,\"turn\":1,\"choice\":\"withdraw\"}",
        94,
        BAD_AND_CLOSED,
    ),
    (
        "POST /v1/answer HTTP/1.1\r\nContent-Length: 50\r\n\r\n{\"cand\":2,\"window\":0,\"turn\":1,\"choice\":\"withdraw\"}",
        98,
        "HTTP/1.1 403 Forbidden\r\nContent-Type: application/json\r\nContent-Length: 56\r\n\r\n{\"name\":\"Denied\",\"refused\":3,\"reply\":\"refused\",\"rule\":1}",
    ),
    (
        "GET /v1/seat/3 HTTP/1.1\r\nX-Office-Token: tok00002\r\n\r\n",
        53,
        "HTTP/1.1 403 Forbidden\r\nContent-Type: application/json\r\nContent-Length: 56\r\n\r\n{\"name\":\"Denied\",\"refused\":3,\"reply\":\"refused\",\"rule\":3}",
    ),
    ("GET /v1/seat/0 HTTP/1.1\r\n\r\n", 27, NOT_FOUND),
    ("GET /v1/nothing HTTP/1.1\r\n\r\n", 28, NOT_FOUND),
    (
        "GET http://127.0.0.1/v1/state HTTP/1.1\r\n\r\n",
        42,
        NOT_FOUND,
    ),
    ("GET /v1/st%61te HTTP/1.1\r\n\r\n", 28, NOT_FOUND),
    ("GET /v1/state/ HTTP/1.1\r\n\r\n", 27, NOT_FOUND),
    ("HEAD /v1/state HTTP/1.1\r\n\r\n", 27, GET_ONLY),
    (
        "POST /v1/state HTTP/1.1\r\nX-Office-Token: tok00002\r\nContent-Length: 0\r\n\r\n",
        72,
        GET_ONLY,
    ),
    (
        "GET /v1/cut HTTP/1.1\r\n\r\n",
        24,
        "HTTP/1.1 405 Method Not Allowed\r\nContent-Length: 0\r\nAllow: POST\r\n\r\n",
    ),
    (
        "POST /v1/cut HTTP/1.1\r\nX-Office-Token: tok00002\r\nContent-Length: 2\r\n\r\n{}",
        72,
        BAD,
    ),
    (
        "POST /v1/cut HTTP/1.1\r\nX-Office-Token: tok00002\r\nContent-Length: 0\r\n\r\n",
        70,
        BAD,
    ),
    (
        "POST /v1/cut HTTP/1.1\r\nX-Office-Token: tok00002\r\nTransfer-Encoding: chunked\r\n\r\n2\r\n{}\r\n0\r\n\r\n",
        79,
        "HTTP/1.1 501 Not Implemented\r\nContent-Length: 0\r\nConnection: close\r\n\r\n",
    ),
    (
        "POST /v1/cut HTTP/1.1\r\nX-Office-Token: tok00002\r\n\r\n",
        51,
        "HTTP/1.1 411 Length Required\r\nContent-Length: 0\r\nConnection: close\r\n\r\n",
    ),
    (
        "POST /v1/cut HTTP/1.1\r\nX-Office-Token: tok00002\r\nContent-Length: 4097\r\n\r\n{",
        73,
        "HTTP/1.1 413 Payload Too Large\r\nContent-Length: 0\r\nConnection: close\r\n\r\n",
    ),
    (
        "no request\r\n\r\nGET /v1/state HTTP/1.1\r\n\r\n",
        14,
        BAD_AND_CLOSED,
    ),
    (
        "GET /v1/state HTTP/1.1\r\nno colon\r\n\r\n",
        36,
        BAD_AND_CLOSED,
    ),
    (
        "GET /v1/state HTTP/1.0\r\n\r\n",
        26,
        "HTTP/1.1 200 OK\r\nContent-Type: application/json\r\nContent-Length: 50\r\nConnection: close\r\n\r\n{\"now\":0,\"published\":0,\"reply\":\"state\",\"rounds\":2}",
    ),
    (
        "GET / HTTP/1.1\r\nconnection: te, CLOSE\r\n\r\n",
        41,
        "HTTP/1.1 404 Not Found\r\nContent-Length: 0\r\nConnection: close\r\n\r\n",
    ),
    ("GET /v1/st", 11, ""),
];

/// Whether a message has no reply before so many of its bytes came, and this one from there on.
fn is_answered_from(alloc: Global, bytes: &[u8], point: usize, reply: &[u8]) -> bool {
    for end in 0..bytes.len() {
        let (cut, _) = bytes.split_at(end);
        let expected = if end < point { b"".as_slice() } else { reply };
        if !gets(alloc, cut, 7, expected) {
            return false;
        }
    }
    true
}

/// Whether a connection of these bytes gets these replies, whatever the length of its pieces.
fn gets_in_pieces(alloc: Global, bytes: &[u8], replies: &[u8]) -> bool {
    [1, 2, 3, 7, 1000]
        .iter()
        .all(|piece| gets(alloc, bytes, *piece, replies))
}

/// Whether all of them are answered wherever they are cut, and in pieces of any length.
fn exchanges_are_right(alloc: Global) -> bool {
    for (message, point, reply) in EXCHANGES {
        let bytes = message.as_bytes();
        if !is_answered_from(alloc, bytes, point, reply.as_bytes())
            || !gets_in_pieces(alloc, bytes, reply.as_bytes())
        {
            return false;
        }
    }
    true
}

#[test]
fn messages_are_answered_however_they_come(rt: HostRuntime) {
    assert!(rt; exchanges_are_right(rt.alloc()));
}

const TOO_LONG: &str =
    "HTTP/1.1 431 Request Header Fields Too Large\r\nContent-Length: 0\r\nConnection: close\r\n\r\n";

/// Whether a connection of these bytes gets these replies, in pieces of some lengths.
fn long_gets(alloc: Global, bytes: Option<Vec<u8>>, replies: &str) -> bool {
    let Some(bytes) = bytes else {
        return false;
    };
    [1, 7, 64].iter().all(|piece| gets(alloc, bytes.as_slice(), *piece, replies.as_bytes()))
}

/// Whether the greatest heads and those with the most fields are answered, and refused where they are greater.
fn limits_are_told(alloc: Global) -> bool {
    long_gets(alloc, long_head(alloc, 8192), STATE)
        && long_gets(alloc, long_head(alloc, 8193), TOO_LONG)
        && long_gets(alloc, many_fields(alloc, 64), STATE)
        && long_gets(alloc, many_fields(alloc, 65), BAD_AND_CLOSED)
}

/// Two messages on one connection, of which the second closes it, and a third that is not read.
const MESSAGES: &[u8] =
    b"GET /v1/state HTTP/1.1\r\n\r\n\r\nGET /v1/cut HTTP/1.1\r\nConnection: close\r\n\r\nGET /v1/state HTTP/1.1\r\n\r\n";

const POST_ONLY_AND_CLOSED: &[u8] =
    b"HTTP/1.1 405 Method Not Allowed\r\nContent-Length: 0\r\nAllow: POST\r\nConnection: close\r\n\r\n";

/// Whether both are answered in their order.
fn are_answered(alloc: Global) -> bool {
    match joined(alloc, &[STATE.as_bytes(), POST_ONLY_AND_CLOSED]) {
        Some(replies) => gets_in_pieces(alloc, MESSAGES, replies.as_slice()),
        None => false,
    }
}

#[test]
fn long_messages_and_several_are_answered(rt: HostRuntime) {
    let alloc = rt.alloc();
    assert!(rt; limits_are_told(alloc) && are_answered(alloc));
}
