// What messages ask: tables of targets, methods, bodies and tokens with their answers from outside.
use crate::messages::{bare, joined, repeated, with_body};
use http_asks::{Judged, Routes, judge, token};
use http_wire::{Arrived, Method, held_message};
use httparse::spans::EMPTY_HEADER_SPAN;
use office_asks::Ask;
use office_base::{CandId, Choice, Code, StepKind};
use std::alloc::Global;

/// A refusal that the trials expect.
fn refused(status: u16, allow: Option<Method>) -> Judged {
    Judged::Refused { status, allow }
}

/// What a message comes to. None where the bytes are no message, or there is no memory.
fn comes_to(alloc: Global, bytes: &[u8]) -> Option<Judged> {
    let mut room = [EMPTY_HEADER_SPAN; 64];
    let Arrived::Whole(message) = held_message(bytes, &mut room) else {
        return None;
    };
    let routes = Routes::new(alloc).ok()?;
    match judge(alloc, &routes, &message) {
        Ok(Judged::Refused { status, allow }) => Some(refused(status, allow)),
        Ok(Judged::Asked(ask)) => Some(Judged::Asked(ask)),
        Err(_) => None,
    }
}

/// What a message without a body comes to.
fn asked(alloc: Global, method: &str, target: &str) -> Option<Judged> {
    let bytes = bare(alloc, method, target)?;
    comes_to(alloc, bytes.as_slice())
}

/// What a POST with this body comes to.
fn posted(alloc: Global, target: &str, body: &[u8]) -> Option<Judged> {
    let bytes = with_body(alloc, target, body)?;
    comes_to(alloc, bytes.as_slice())
}

/// Targets that name no page, whatever the method.
const UNKNOWN: [&str; 57] = [
    "/",
    "*",
    "/v1",
    "/v1/",
    "/v1/state/",
    "/v1/state/1",
    "/v1/State",
    "/v1//state",
    "//v1/state",
    "v1/state",
    "/v2/state",
    "/state",
    "/v1/states",
    "/v1/st%61te",
    "/?/v1/state",
    "http://127.0.0.1/v1/state",
    "/v1/answer/",
    "/v1/answer/1",
    "/v1/seat",
    "/v1/seat/",
    "/v1/seat/0",
    "/v1/seat/01",
    "/v1/seat/1000000000",
    "/v1/seat/99999999999999999999",
    "/v1/seat/1/",
    "/v1/seat/1a",
    "/v1/seat/?1",
    "/v1/why/1",
    "/v1/why/0/A",
    "/v1/why/1/",
    "/v1/why/1/A/",
    "/v1/why/1/ABCDEFGHIJKLMNOPQ",
    "/v1/list/65536/A",
    "/v1/list/1/A.B",
    "/v1/list/1",
    "/v1/round",
    "/v1/round/",
    "/v1/round/01",
    "/v1/round/65536",
    "/v1/round/1/",
    "/v1/round/1/A",
    "/v1/rounds/1",
    "/v1/choices",
    "/v1/choices/0",
    "/v1/choices/1/A",
    "/v1/choices/1000000000",
    "/v1/cutoffs/1",
    "/v1/cutoffs/01/A",
    "/v1/cutoffs/65536/A",
    "/v1/cutoffs/1/A/",
    "/v1/cutoff/1/A",
    "/v1/register",
    "/v1/register/0",
    "/v1/register/1/A",
    "/v1/answers",
    "/v1/answers/0",
    "/v1/answers/1000000000",
];

/// Whether a target names no page, whatever the method.
fn is_no_page(alloc: Global, target: &str) -> bool {
    let none = Some(refused(404, None));
    asked(alloc, "GET", target) == none
        && asked(alloc, "POST", target) == none
        && asked(alloc, "HEAD", target) == none
}

/// Whether all of them name none.
fn others_are_none(alloc: Global) -> bool {
    for target in UNKNOWN {
        if !is_no_page(alloc, target) {
            return false;
        }
    }
    true
}

/// Methods and targets of which the page has another method, and that method.
const OTHERS: [(&str, &str, Method); 17] = [
    ("HEAD", "/v1/state", Method::Get),
    ("POST", "/v1/state", Method::Get),
    ("get", "/v1/state?x=1", Method::Get),
    ("GETS", "/v1/state", Method::Get),
    ("OPTIONS", "/v1/seat/1", Method::Get),
    ("DELETE", "/v1/why/1/A", Method::Get),
    ("PUT", "/v1/list/0/A", Method::Get),
    ("POST", "/v1/round/1", Method::Get),
    ("HEAD", "/v1/choices/2?x", Method::Get),
    ("POST", "/v1/cutoffs/1/A", Method::Get),
    ("POST", "/v1/register/2", Method::Get),
    ("PUT", "/v1/answers/2", Method::Get),
    ("GET", "/v1/answer", Method::Post),
    ("PUT", "/v1/answer", Method::Post),
    ("HEAD", "/v1/cut", Method::Post),
    ("GET", "/v1/raise", Method::Post),
    ("post", "/v1/raise?", Method::Post),
];

/// Returns whether the refusal of each of them names the method of the page.
fn others_are_refused(alloc: Global) -> bool {
    for (method, target, allowed) in OTHERS {
        if asked(alloc, method, target) != Some(refused(405, Some(allowed))) {
            return false;
        }
    }
    true
}

/// Targets that ask for the state.
const STATES: [&str; 4] = ["/v1/state", "/v1/state?", "/v1/state?x=1", "/v1/state?/?"];

/// Whether all of them do.
fn the_state_is_asked(alloc: Global) -> bool {
    for target in STATES {
        if asked(alloc, "GET", target) != Some(Judged::Asked(Ask::State)) {
            return false;
        }
    }
    true
}

/// Targets that ask for a candidate's seat, and the candidate.
const SEATS: [(&str, u32); 3] = [
    ("/v1/seat/1", 1),
    ("/v1/seat/999999999?2", 999_999_999),
    ("/v1/seat/70", 70),
];

/// Whether all of them do.
fn seats_are_asked(alloc: Global) -> bool {
    for (target, id) in SEATS {
        let seat = Ask::Seat { cand: CandId(id) };
        if asked(alloc, "GET", target) != Some(Judged::Asked(seat)) {
            return false;
        }
    }
    true
}

/// What is asked of a candidate and a programme.
fn why(id: u32, prog: &[u8]) -> Option<Judged> {
    let prog = Code::read(prog)?;
    let cand = CandId(id);
    Some(Judged::Asked(Ask::Why { cand, prog }))
}

/// What is asked of a round and a programme.
fn list(round: u16, prog: &[u8]) -> Option<Judged> {
    let prog = Code::read(prog)?;
    Some(Judged::Asked(Ask::List { round, prog }))
}

/// Whether a reason is asked.
fn reasons_are_asked(alloc: Global) -> bool {
    let expected = why(12, b"A-1");
    expected.is_some() && asked(alloc, "GET", "/v1/why/12/A-1") == expected
}

/// Targets that ask for the list of a programme with the longest code, and the round.
const LISTS: [(&str, u16); 2] = [
    ("/v1/list/0/ABCDEFGHIJKLMNOP", 0),
    ("/v1/list/65535/ABCDEFGHIJKLMNOP", 65_535),
];

/// Whether all of them do.
fn lists_are_asked(alloc: Global) -> bool {
    for (target, round) in LISTS {
        let expected = list(round, b"ABCDEFGHIJKLMNOP");
        if expected.is_none() || asked(alloc, "GET", target) != expected {
            return false;
        }
    }
    true
}

/// Targets that ask for what was published under a number, and the number.
const ROUNDS: [(&str, u16); 3] = [
    ("/v1/round/0", 0),
    ("/v1/round/1?x=2", 1),
    ("/v1/round/65535", 65_535),
];

/// Returns whether each of them does.
fn rounds_are_asked(alloc: Global) -> bool {
    for (target, round) in ROUNDS {
        if asked(alloc, "GET", target) != Some(Judged::Asked(Ask::Round { round })) {
            return false;
        }
    }
    true
}

/// Targets that ask for a candidate's choice list, and the candidate.
const CHOICES: [(&str, u32); 2] = [
    ("/v1/choices/7", 7),
    ("/v1/choices/999999999?", 999_999_999),
];

/// Returns whether each of them does.
fn choices_are_asked(alloc: Global) -> bool {
    for (target, id) in CHOICES {
        let choices = Ask::Choices { cand: CandId(id) };
        if asked(alloc, "GET", target) != Some(Judged::Asked(choices)) {
            return false;
        }
    }
    true
}

/// Returns whether a target asks for a candidate's entry in the register, and another for their answers.
fn entries_are_asked(alloc: Global) -> bool {
    let register = Judged::Asked(Ask::Register { cand: CandId(7) });
    let answers = Judged::Asked(Ask::Answers {
        cand: CandId(999_999_999),
    });
    asked(alloc, "GET", "/v1/register/7?x=1") == Some(register)
        && asked(alloc, "GET", "/v1/answers/999999999") == Some(answers)
}

/// Returns whether a target asks for the cutoffs of a programme in a round.
fn cutoffs_are_asked(alloc: Global) -> bool {
    let Some(prog) = Code::read(b"A") else {
        return false;
    };
    asked(alloc, "GET", "/v1/cutoffs/65535/A")
        == Some(Judged::Asked(Ask::Cutoffs {
            round: 65_535,
            prog,
        }))
}

#[test]
fn pages_and_methods_are_told(rt: HostRuntime) {
    let alloc = rt.alloc();
    assert!(rt; others_are_none(alloc) && others_are_refused(alloc));
}

/// Whether what is asked in the target of a GET is read.
fn gets_are_read(alloc: Global) -> bool {
    the_state_is_asked(alloc)
        && seats_are_asked(alloc)
        && reasons_are_asked(alloc)
        && lists_are_asked(alloc)
        && rounds_are_asked(alloc)
        && choices_are_asked(alloc)
        && entries_are_asked(alloc)
        && cutoffs_are_asked(alloc)
}

#[test]
fn targets_are_read(rt: HostRuntime) {
    assert!(rt; gets_are_read(rt.alloc()));
}

/// Bodies of answers, and whether they are read as the answer `float` of candidate 7 at turn 2 of window 1.
const ANSWERS: [(&str, bool); 30] = [
    (r#"{"cand":7,"choice":"float","turn":2,"window":1}"#, true),
    (
        r#" {"window" : 1, "turn":2, "choice":"fl\u006fat", "cand":7} "#,
        true,
    ),
    (
        r#"{"cand":7,"choice":"float","turn":2,"window":1,"more":[{"cand":1}]}"#,
        true,
    ),
    (
        r#"{"cand":8,"choice":"float","turn":2,"window":1,"cand":7}"#,
        true,
    ),
    (
        r#"{"cand":7,"choice":"float","turn":2,"window":1,"cand":"7"}"#,
        false,
    ),
    (r#"{"cand":7,"choice":"float","turn":2,"window":1}}"#, false),
    (r#"{"cand":7,"choice":"float","turn":2,"window":1,}"#, false),
    (r#"{"cand":7,"choice":"float","turn":2}"#, false),
    (r#"{"cand":7,"choice":"float","window":1}"#, false),
    (r#"{"cand":7,"turn":2,"window":1}"#, false),
    (r#"{"choice":"float","turn":2,"window":1}"#, false),
    (
        r#"{"cand":7.0,"choice":"float","turn":2,"window":1}"#,
        false,
    ),
    (
        r#"{"cand":7e0,"choice":"float","turn":2,"window":1}"#,
        false,
    ),
    (
        r#"{"cand":"7","choice":"float","turn":2,"window":1}"#,
        false,
    ),
    (r#"{"cand":-7,"choice":"float","turn":2,"window":1}"#, false),
    (r#"{"cand":0,"choice":"float","turn":2,"window":1}"#, false),
    (
        r#"{"cand":1000000000,"choice":"float","turn":2,"window":1}"#,
        false,
    ),
    (
        r#"{"cand":18446744073709551623,"choice":"float","turn":2,"window":1}"#,
        false,
    ),
    (
        r#"{"cand":null,"choice":"float","turn":2,"window":1}"#,
        false,
    ),
    (
        r#"{"cand":[7],"choice":"float","turn":2,"window":1}"#,
        false,
    ),
    (r#"{"cand":7,"choice":"Float","turn":2,"window":1}"#, false),
    (r#"{"cand":7,"choice":"","turn":2,"window":1}"#, false),
    (r#"{"cand":7,"choice":1,"turn":2,"window":1}"#, false),
    (r#"{"cand":7,"choice":"float","turn":0,"window":1}"#, false),
    (
        r#"{"cand":7,"choice":"float","turn":65536,"window":1}"#,
        false,
    ),
    (
        r#"{"cand":7,"choice":"float","turn":2,"window":65536}"#,
        false,
    ),
    (r#"{"cand":7,"choice":"float","turn":2,"window":-0}"#, false),
    (
        r#"[{"cand":7,"choice":"float","turn":2,"window":1}]"#,
        false,
    ),
    ("7", false),
    ("", false),
];

/// What the body of an answer comes to, where it is read or not.
fn answer(is_read: bool) -> Judged {
    if !is_read {
        return refused(400, None);
    }
    Judged::Asked(Ask::Answer {
        cand: CandId(7),
        window: 1,
        turn: 2,
        choice: Choice::Float,
    })
}

/// Whether all of them are read, or not.
fn answers_are_read(alloc: Global) -> bool {
    for (body, is_read) in ANSWERS {
        if posted(alloc, "/v1/answer?x", body.as_bytes()) != Some(answer(is_read)) {
            return false;
        }
    }
    true
}

/// Whether a body that is no text is refused.
fn other_bytes_are_refused(alloc: Global) -> bool {
    let body = b"{\"cand\":7,\"choice\":\"float\",\"turn\":2,\"window\":1,\"a\":\"\xff\"}";
    posted(alloc, "/v1/answer", body) == Some(refused(400, None))
}

/// Bodies of cuts and of raises, and the window that they have, where they are read.
const OTHER_BODIES: [(&str, &str, Option<u16>); 14] = [
    ("/v1/cut", r#"{"window":0}"#, Some(0)),
    ("/v1/cut", r#"{"window":65535,"cand":null}"#, Some(65_535)),
    ("/v1/cut", r#"{"window":65536}"#, None),
    ("/v1/cut", r#"{"window":1.0}"#, None),
    ("/v1/cut", r#"{"Window":1}"#, None),
    ("/v1/cut", "{}", None),
    (
        "/v1/raise",
        r#"{"programme":"A","seats":3,"step":"OPEN","window":4}"#,
        Some(4),
    ),
    (
        "/v1/raise",
        r#"{"programme":"","seats":3,"step":"OPEN","window":4}"#,
        None,
    ),
    (
        "/v1/raise",
        r#"{"programme":1,"seats":3,"step":"OPEN","window":4}"#,
        None,
    ),
    (
        "/v1/raise",
        r#"{"programme":"A","seats":0,"step":"OPEN","window":4}"#,
        None,
    ),
    (
        "/v1/raise",
        r#"{"programme":"A","seats":4001,"step":"OPEN","window":4}"#,
        None,
    ),
    (
        "/v1/raise",
        r#"{"programme":"A","seats":3,"step":"open","window":4}"#,
        None,
    ),
    (
        "/v1/raise",
        r#"{"programme":"A","seats":3,"step":"D","window":4}"#,
        None,
    ),
    (
        "/v1/raise",
        r#"{"programme":"A","seats":3,"step":"OPEN"}"#,
        None,
    ),
];

/// What a body of a cut or of a raise comes to, where it has this window or is not read.
fn window_asked(target: &str, window: Option<u16>) -> Option<Judged> {
    let Some(window) = window else {
        return Some(refused(400, None));
    };
    if target == "/v1/cut" {
        return Some(Judged::Asked(Ask::Cut { window }));
    }
    let prog = Code::read(b"A")?;
    Some(Judged::Asked(Ask::Raise {
        window,
        prog,
        step: StepKind::Open,
        seats: 3,
    }))
}

/// Whether all of them are read, or not.
fn cuts_and_raises_are_read(alloc: Global) -> bool {
    for (target, body, window) in OTHER_BODIES {
        let came = posted(alloc, target, body.as_bytes());
        if came.is_none() || came != window_asked(target, window) {
            return false;
        }
    }
    true
}

/// What a cut with a body of 4,096 bytes comes to.
fn long_cut(alloc: Global) -> Option<Judged> {
    let mut body = repeated(alloc, b"{\"window\":3", b" ", 4084)?;
    body.push(b'}').ok()?;
    if body.len() != 4096 {
        return None;
    }
    posted(alloc, "/v1/cut", body.as_slice())
}

/// Whether it is read.
fn the_longest_body_is_read(alloc: Global) -> bool {
    long_cut(alloc) == Some(Judged::Asked(Ask::Cut { window: 3 }))
}

/// Messages whose body is not read, and what they come to.
const UNREAD: [(&str, Judged); 2] = [
    (
        "GET /v1/state HTTP/1.1\r\nContent-Length: 3\r\n\r\n{\"a",
        Judged::Asked(Ask::State),
    ),
    (
        "GET /v1/cut HTTP/1.1\r\nContent-Length: 3\r\n\r\n{\"a",
        Judged::Refused {
            status: 405,
            allow: Some(Method::Post),
        },
    ),
];

/// Whether all of them come to that.
fn the_body_of_a_get_is_not_read(alloc: Global) -> bool {
    for (bytes, expected) in UNREAD {
        if comes_to(alloc, bytes.as_bytes()) != Some(expected) {
            return false;
        }
    }
    true
}

/// Whether bodies of all kinds come to what they should.
fn bodies_are_told(alloc: Global) -> bool {
    answers_are_read(alloc)
        && other_bytes_are_refused(alloc)
        && cuts_and_raises_are_read(alloc)
        && the_longest_body_is_read(alloc)
        && the_body_of_a_get_is_not_read(alloc)
}

#[test]
fn bodies_are_read(rt: HostRuntime) {
    assert!(rt; bodies_are_told(rt.alloc()));
}

/// The fields of a message, and the token that it has.
const TOKENS: [(&str, Option<&str>); 7] = [
    ("", None),
    ("Host: a\r\n", None),
    ("X-Office-Token: clerk0001\r\n", Some("clerk0001")),
    ("x-OFFICE-token: \t a b \r\n", Some("a b")),
    ("X-Office-Token:\r\n", Some("")),
    (
        "X-Office-Token: first\r\nX-Office-Token: second\r\n",
        Some("first"),
    ),
    ("X-Office-Tokens: a\r\nX-Office-Token: b\r\n", Some("b")),
];

/// Whether a message has this token, or none.
fn has_token(bytes: &[u8], expected: Option<&[u8]>) -> bool {
    let mut room = [EMPTY_HEADER_SPAN; 64];
    match held_message(bytes, &mut room) {
        Arrived::Whole(message) => token(&message.fields) == expected,
        _ => false,
    }
}

/// Whether a message with these fields has this token, or none.
fn gives_token(alloc: Global, fields: &str, expected: Option<&str>) -> bool {
    let first = b"GET /v1/state HTTP/1.1\r\n".as_slice();
    match joined(alloc, &[first, fields.as_bytes(), b"\r\n".as_slice()]) {
        Some(bytes) => has_token(bytes.as_slice(), expected.map(str::as_bytes)),
        None => false,
    }
}

/// Whether all of them have theirs.
fn tokens_are_told(alloc: Global) -> bool {
    for (fields, expected) in TOKENS {
        if !gives_token(alloc, fields, expected) {
            return false;
        }
    }
    true
}

#[test]
fn the_first_token_counts(rt: HostRuntime) {
    assert!(rt; tokens_are_told(rt.alloc()));
}
