// One message of the held bytes, answered.
ghost use Rattle.std.specs.Prelude.{◌≡◌, ◌+◌, ◌≤◌, ◌<◌, ◌||◌, ◌==◌, ℕ, Option, Result, None, Some, [], ◌++◌, length, IfSome, IfNone, IsErr, OnOk, OnErr, take};
ghost use Rattle.std.specs.Option.{unwrap_or};
ghost use Rattle.office_base.specs.Outside.{Appends, Fails};
ghost use Rattle.http_sessions.specs.Limits.{most_messages};
ghost use Rattle.http_wire.specs.Fields.{closes};
ghost use Rattle.http_wire.specs.Messages.{IsUnfinished, IsWhole};
ghost use Rattle.http_wire.specs.Told.{told_message, told_fields};
ghost use Rattle.http_sessions.specs.Steps.{IsReady};
ghost use Rattle.http_sessions.specs.Exchange.{Outcome, Goes, item_of, reply_to, heard, answered_text, body_text};
ghost use Rattle.http_asks.specs.Verdicts.{token_in};

use crate::counter::{Answered, Counter};
use crate::gate::Gate;
use http::StatusCode;
use http_asks::{Judged, Routes, judge, token};
use http_wire::{Arrived, Fault, HeldMessage, Outbox, held_message};
use httparse::spans::{EMPTY_HEADER_SPAN, HeaderSpan};
use office_base::{Failed, OutOfMemory, Text};
use office_links::{Link, write_link};
use std::alloc::Global;

/// The most messages of a connection: it closes after this one.
const MOST_MESSAGES: u32 = 100;

/// What a message is read and answered with:
/// the places of its fields, the routes of the pages, and the room for a reply.
#[derive(Drop)]
pub(crate) struct Tools {
    pub room: [HeaderSpan; 64],
    pub routes: Routes,
    pub outbox: Outbox,
}

impl Tools {
    pub(crate) fn new(alloc: Global) -> Result<Tools, OutOfMemory> {
        Ok(Tools {
            room: [EMPTY_HEADER_SPAN; 64],
            routes: Routes::new(alloc)?,
            outbox: Outbox::new(alloc)?,
        })
    }
}

/// Which message it is: the number of the worker from 0, and of the message in its connection from 1.
#[derive(Clone, Copy)]
pub(crate) struct At {
    pub worker: u32,
    pub message: u32,
}

/// A reply that is ready: how many of the held bytes its message took, whether it asks to close,
/// and what follows the bytes of the outbox.
#[derive(Drop)]
pub(crate) struct Ready {
    pub len: usize,
    pub last: bool,
    pub body: Option<Text>,
}

/// Puts the reply to what was asked; it returns the body if it does not fit.
fn put_answer(outbox: &mut Outbox, answer: Result<Answered, Fault>, close: bool) -> Option<Text>
    ensures { outbox.new ++ unwrap_or result [] ≡ answered_text close answer }
{
    match answer {
        Err(fault) => {
            outbox.fail(fault, close);
            None
        }
        Ok(Answered { status, body }) => put_body(outbox, status, body, close),
    }
}

/// Puts a reply with its body, or that memory ran out for it. It returns the body if it does not fit.
fn put_body(
    outbox: &mut Outbox,
    status: StatusCode,
    body: Result<Text, OutOfMemory>,
    close: bool,
) -> Option<Text>
    ensures { outbox.new ++ unwrap_or result [] ≡ body_text close status body }
{
    match body {
        Err(OutOfMemory) => {
            outbox.fail(Fault::Memory, close);
            None
        }
        Ok(text) => {
            if outbox.reply(status.as_u16(), text.as_slice(), close) {
                return None;
            }
            Some(text)
        }
    }
}

/// Returns whether the connection closes after the reply to the message of this number.
fn closes_after(message: &HeldMessage<'_>, number: u32) -> bool
    ensures { result ≡ closes message.now.minor (told_fields message.now.fields)
        || number == most_messages }
{
    message.closes() || number == MOST_MESSAGES
}

/// Answers a message, and calls the gate around what it asks.
fn answer_message<C: Counter, G: Gate>(
    alloc: Global,
    counter: &mut C,
    message: &HeldMessage<'_>,
    routes: &Routes,
    outbox: &mut Outbox,
    gate: &G,
    at: At,
) -> Option<Text>
    requires { 1 ≤ C.asks_left counter.old }
    ensures goes { (outcome : Outcome) × Goes C.answers counter.old
        (item_of (told_message message.now)) outcome counter.new × (outbox.new
        ++ unwrap_or result [] ≡ reply_to at.message (item_of (told_message message.now)) outcome) }
    ensures left { C.asks_left counter.old ≤ C.asks_left counter.new + 1 }
    ensures same { C.lender counter.new ≡ C.lender counter.old }
{
    let close = closes_after(message, at.message);
    match judge(alloc, routes, message) {
        Err(OutOfMemory) => {
            outbox.fail(Fault::Memory, close);
            None
        }
        Ok(Judged::Refused { status, allow }) => {
            outbox.refuse(status, allow, close);
            None
        }
        Ok(Judged::Asked(ask)) => {
            gate.before(at.worker, at.message);
            let answer = counter.ask(alloc, token(&message.fields), &ask);
            gate.after(at.worker, at.message);
            put_answer(outbox, answer, close)
        }
    }
}

/// Answers the message that the held bytes begin with. Returns None if it needs more bytes.
pub(crate) fn answer_held<C: Counter, G: Gate>(
    alloc: Global,
    counter: &mut C,
    held: &[u8],
    tools: &mut Tools,
    gate: &G,
    at: At,
) -> Option<Ready>
    requires { 1 ≤ C.asks_left counter.old }
    ensures none { IfNone result (IsUnfinished held.now × (counter.new ≡ counter.old)) }
    ensures some { IfSome result (λ ready. IsReady C.answers counter.old counter.new at.message
        held.now ready.len ready.last (tools.new.outbox ++ unwrap_or ready.body [])) }
    ensures within { IfSome result (λ ready. ready.len ≤ length held.now) }
    ensures left { C.asks_left counter.old ≤ C.asks_left counter.new + 1 }
    ensures same { C.lender counter.new ≡ C.lender counter.old }
{
    match held_message(held, &mut tools.room) {
        Arrived::More => None,
        Arrived::Refused(status) => {
            tools.outbox.refuse(status, None, true);
            Some(Ready {
                len: 0,
                last: true,
                body: None,
            })
        }
        Arrived::Whole(message) => {
            let body = answer_message(
                alloc,
                counter,
                &message,
                &tools.routes,
                &mut tools.outbox,
                gate,
                at,
            );
            Some(Ready {
                len: message.len,
                last: message.closes(),
                body,
            })
        }
    }
}

/// Writes a reply that is ready.
pub(crate) fn send<L: Link>(
    link: &mut L,
    outbox: &Outbox,
    body: &Option<Text>,
) -> Result<(), Failed>
    ensures ok { OnOk result
        (Appends (outbox.now ++ unwrap_or body.now []) (L.written link.old) (L.written link.new)) }
    ensures err { OnErr result ((n : ℕ) × (n < length (outbox.now ++ unwrap_or body.now []))
        × Appends (take n (outbox.now ++ unwrap_or body.now []))
        (L.written link.old) (L.written link.new)) }
    ensures apart { L.left link.new ≡ L.left link.old }
    ensures blamed { Fails (IsErr result) (L.faults link.old) (L.faults link.new) }
{
    write_link(link, outbox.bytes())?;
    match body {
        None => Ok(()),
        Some(text) => write_link(link, text.as_slice()),
    }
}
