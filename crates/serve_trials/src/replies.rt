// Replies with their exact bytes: each refusal of a message, each status of an answer, the two faults, and bodies of the greatest length.
use crate::messages::repeated;
use http_wire::{BODY_ROOM, Fault, Method, Outbox};
use std::alloc::Global;

/// The refusals of messages: the status, what the path has, whether the connection closes, and the bytes.
const REFUSALS: [(u16, Option<Method>, bool, &str); 11] = [
    (
        400,
        None,
        true,
        "HTTP/1.1 400 Bad Request\r\nContent-Length: 0\r\nConnection: close\r\n\r\n",
    ),
    (
        431,
        None,
        true,
        "HTTP/1.1 431 Request Header Fields Too Large\r\nContent-Length: 0\r\nConnection: close\r\n\r\n",
    ),
    (
        501,
        None,
        true,
        "HTTP/1.1 501 Not Implemented\r\nContent-Length: 0\r\nConnection: close\r\n\r\n",
    ),
    (
        411,
        None,
        true,
        "HTTP/1.1 411 Length Required\r\nContent-Length: 0\r\nConnection: close\r\n\r\n",
    ),
    (
        413,
        None,
        true,
        "HTTP/1.1 413 Payload Too Large\r\nContent-Length: 0\r\nConnection: close\r\n\r\n",
    ),
    (
        404,
        None,
        false,
        "HTTP/1.1 404 Not Found\r\nContent-Length: 0\r\n\r\n",
    ),
    (
        404,
        None,
        true,
        "HTTP/1.1 404 Not Found\r\nContent-Length: 0\r\nConnection: close\r\n\r\n",
    ),
    (
        405,
        Some(Method::Get),
        false,
        "HTTP/1.1 405 Method Not Allowed\r\nContent-Length: 0\r\nAllow: GET\r\n\r\n",
    ),
    (
        405,
        Some(Method::Post),
        false,
        "HTTP/1.1 405 Method Not Allowed\r\nContent-Length: 0\r\nAllow: POST\r\n\r\n",
    ),
    (
        405,
        Some(Method::Get),
        true,
        "HTTP/1.1 405 Method Not Allowed\r\nContent-Length: 0\r\nAllow: GET\r\nConnection: close\r\n\r\n",
    ),
    (
        400,
        None,
        false,
        "HTTP/1.1 400 Bad Request\r\nContent-Length: 0\r\n\r\n",
    ),
];

/// Puts a refusal where its status is one.
pub fn refuse(outbox: &mut Outbox, status: u16, allow: Option<Method>, close: bool) -> bool {
    if status < 100 || status > 999 {
        return false;
    }
    outbox.refuse(status, allow, close);
    true
}

/// Whether a refusal has these bytes.
fn is_refused(
    outbox: &mut Outbox,
    status: u16,
    allow: Option<Method>,
    close: bool,
    text: &str,
) -> bool {
    refuse(outbox, status, allow, close) && outbox.bytes() == text.as_bytes()
}

/// Whether all of them have their bytes.
fn messages_are_refused(outbox: &mut Outbox) -> bool {
    for (status, allow, close, text) in REFUSALS {
        if !is_refused(outbox, status, allow, close, text) {
            return false;
        }
    }
    true
}

/// Answers: the status, the body, whether the connection closes, and the bytes.
const REPLIES: [(u16, &str, bool, &str); 4] = [
    (
        200,
        r#"{"now":0,"published":0,"reply":"state","rounds":2}"#,
        false,
        "HTTP/1.1 200 OK\r\nContent-Type: application/json\r\nContent-Length: 50\r\n\r\n{\"now\":0,\"published\":0,\"reply\":\"state\",\"rounds\":2}",
    ),
    (
        403,
        "{}",
        true,
        "HTTP/1.1 403 Forbidden\r\nContent-Type: application/json\r\nContent-Length: 2\r\nConnection: close\r\n\r\n{}",
    ),
    (
        404,
        "{}",
        false,
        "HTTP/1.1 404 Not Found\r\nContent-Type: application/json\r\nContent-Length: 2\r\n\r\n{}",
    ),
    (
        409,
        "{}",
        false,
        "HTTP/1.1 409 Conflict\r\nContent-Type: application/json\r\nContent-Length: 2\r\n\r\n{}",
    ),
];

/// Puts an answer where its status is one. It answers whether its body is inside.
pub fn answer(outbox: &mut Outbox, status: u16, body: &[u8], close: bool) -> bool {
    if status < 100 || status > 999 {
        return false;
    }
    outbox.reply(status, body, close)
}

/// Whether an answer has these bytes.
fn is_replied(outbox: &mut Outbox, status: u16, body: &str, close: bool, text: &str) -> bool {
    answer(outbox, status, body.as_bytes(), close) && outbox.bytes() == text.as_bytes()
}

/// Whether all of them have their bytes.
fn answers_have_a_body(outbox: &mut Outbox) -> bool {
    for (status, body, close, text) in REPLIES {
        if !is_replied(outbox, status, body, close, text) {
            return false;
        }
    }
    true
}

/// The faults, whether the connection closes, and the bytes.
const FAULTS: [(Fault, bool, &str); 2] = [
    (
        Fault::Keeper,
        false,
        "HTTP/1.1 503 Service Unavailable\r\nContent-Type: application/json\r\nContent-Length: 18\r\n\r\n{\"fault\":\"keeper\"}",
    ),
    (
        Fault::Memory,
        true,
        "HTTP/1.1 507 Insufficient Storage\r\nContent-Type: application/json\r\nContent-Length: 18\r\nConnection: close\r\n\r\n{\"fault\":\"memory\"}",
    ),
];

/// Whether both have their bytes.
fn faults_are_told(outbox: &mut Outbox) -> bool {
    for (fault, close, text) in FAULTS {
        outbox.fail(fault, close);
        if outbox.bytes() != text.as_bytes() {
            return false;
        }
    }
    true
}

/// Whether one outbox, which is empty at first, has the bytes of all of them in turn.
fn replies_are_right(alloc: Global) -> bool {
    match Outbox::new(alloc) {
        Ok(mut outbox) => {
            outbox.bytes().is_empty()
                && messages_are_refused(&mut outbox)
                && answers_have_a_body(&mut outbox)
                && faults_are_told(&mut outbox)
        }
        Err(_) => false,
    }
}

#[test]
fn replies_have_their_bytes(rt: HostRuntime) {
    assert!(rt; replies_are_right(rt.alloc()));
}

/// The heads of replies with a body of 8,192 bytes and one more.
const LONGEST: &[u8] =
    b"HTTP/1.1 200 OK\r\nContent-Type: application/json\r\nContent-Length: 8192\r\n\r\n";

const LONGER: &[u8] =
    b"HTTP/1.1 200 OK\r\nContent-Type: application/json\r\nContent-Length: 8193\r\n\r\n";

/// Whether a body of so many bytes is inside, and the reply has so many bytes and begins so. None where there is no memory.
fn stands(alloc: Global, len: usize, is_inside: bool, head: &[u8], total: usize) -> Option<bool> {
    let mut outbox = Outbox::new(alloc).ok()?;
    let body = repeated(alloc, b"", b"x", len)?;
    let is_put = outbox.reply(200, body.as_slice(), false);
    let bytes = outbox.bytes();
    let is_whole = bytes.len() == total && bytes.starts_with(head);
    Some(is_put == is_inside && is_whole && bytes.ends_with(body.as_slice()) == is_inside)
}

/// Whether the longest body is inside, and one of a byte more is not.
fn long_bodies_stand(alloc: Global) -> bool {
    stands(alloc, BODY_ROOM, true, LONGEST, 8_265) == Some(true)
        && stands(alloc, 8_193, false, LONGER, 73) == Some(true)
}

#[test]
fn a_long_body_stays_outside(rt: HostRuntime) {
    assert!(rt; long_bodies_stand(rt.alloc()));
}
