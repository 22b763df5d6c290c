// One message over a link: read until it is there, answered, and its reply written.
ghost use Rattle.std.specs.Prelude.{◌≡◌, ◌+◌, ◌≤◌, ◌⊎◌, ℕ, List, ◌++◌, [], length, drop};
ghost use Rattle.std.specs.Option.{unwrap_or};
ghost use Rattle.office_base.specs.Outside.{Fails, IsAtEnd, Took};
ghost use Rattle.http_sessions.specs.Steps.{IsSent, IsStep, step_of};

use crate::answering::{At, Ready, Tools, answer_held, send};
use crate::counter::Counter;
use crate::gate::Gate;
use crate::inbox::Inbox;
use http_wire::Outbox;
use http_wire::laws::unfinished_bytes_are_few;
use office_links::Link;
use std::alloc::Global;

/// What came of the next message.
#[derive(Clone, Copy, PartialEq, Eq)]
pub(crate) enum Step {
    /// It is answered.
    Next,
    /// It is answered, and asked to close.
    Last,
    /// The input ended before it.
    Ended,
    /// The input ended inside it.
    Torn,
    /// The link failed in a read.
    Unread,
    /// The link failed in the write of its reply.
    Unwritten,
}

/// Writes a reply that is ready, and drops its message.
fn finish<L: Link>(link: &mut L, inbox: &mut Inbox, outbox: &Outbox, ready: Ready) -> Step
    requires { ready.len ≤ length inbox.old }
    ensures sent { IsSent (outbox.now ++ unwrap_or ready.body []) ready.last ready.len
        inbox.old inbox.new (L.written link.old) (L.written link.new) result }
    ensures apart { L.left link.new ≡ L.left link.old }
    ensures blamed { Fails (result ≡ Step.Unwritten) (L.faults link.old) (L.faults link.new) }
{
    if send(link, outbox, &ready.body).is_err() {
        return Step::Unwritten;
    }
    inbox.skip(ready.len);
    if ready.last { Step::Last } else { Step::Next }
}

/// Reads until the next message is there, and answers it.
pub(crate) fn exchange_one<C: Counter, L: Link, G: Gate>(
    alloc: Global,
    counter: &mut C,
    link: &mut L,
    inbox: &mut Inbox,
    tools: &mut Tools,
    gate: &G,
    at: At,
) -> Step
    requires { 1 ≤ C.asks_left counter.old }
    ensures met { (got : List ℕ) × Took got (L.left link.old) (L.left link.new)
        × IsStep C.answers counter.old counter.new at.message (inbox.old ++ got) inbox.new
        (IsAtEnd (L.left link.new)) (L.written link.old) (L.written link.new) result }
    ensures left { C.asks_left counter.old ≤ C.asks_left counter.new + 1 }
    ensures same { C.lender counter.new ≡ C.lender counter.old }
    ensures blamed { Fails ((result ≡ Step.Unwritten) ⊎ (result ≡ Step.Unread))
        (L.faults link.old) (L.faults link.new) }
{
    unfinished_bytes_are_few();
    'reads: loop {
        match answer_held(alloc, counter, inbox.held(), tools, gate, at) {
            Some(ready) => return finish(link, inbox, &tools.outbox, ready),
            None => match inbox.fill(link) {
                Ok(0) => return at_end(inbox),
                Ok(_) => {}
                Err(_) => return Step::Unread,
            },
        }
    }
}

/// Returns the step at the end of the input.
fn at_end(inbox: &Inbox) -> Step
    ensures { result ≡ step_of inbox.now }
{
    if inbox.held().is_empty() {
        Step::Ended
    } else {
        Step::Torn
    }
}
