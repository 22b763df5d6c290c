// A session: the messages of a link, answered one after another.
ghost use Rattle.std.specs.Prelude.{◌≡◌, ◌+◌, ◌≤◌, ℕ, List, Option};
ghost use Rattle.office_base.specs.Outside.{AreLeft, Fails};
ghost use Rattle.http_sessions.specs.Limits.{most_messages};
ghost use Rattle.http_sessions.specs.Sessions.{IsSession, talk_over};
ghost use Rattle.http_sessions.specs.Steps.{end_of};

use crate::answering::{At, Tools};
use crate::counter::Counter;
use crate::gate::Gate;
use crate::inbox::Inbox;
use crate::messages::{Step, exchange_one};
use office_base::OutOfMemory;
use office_links::Link;
use std::alloc::Global;

/// What a session is lent: room for the bytes of messages, the routes of the pages and the room for a reply.
/// What it held before does not matter.
#[derive(Drop)]
pub struct Buffers {
    inbox: Inbox,
    tools: Tools,
}

impl Buffers {
    /// Takes the room.
    pub fn new(alloc: Global) -> Result<Buffers, OutOfMemory> {
        Ok(Buffers {
            inbox: Inbox::new(alloc)?,
            tools: Tools::new(alloc)?,
        })
    }
}

/// How a session ended.
#[derive(Clone, Copy, PartialEq, Eq)]
pub enum SessionEnd {
    /// The input ended between messages, or a reply closed the connection that was not the hundredth.
    Ended,
    /// The input ended inside a message, which gets no reply.
    Torn,
    /// A hundred replies were written.
    LimitReached,
    /// The link failed: its count rose.
    LinkFault,
}

/// Returns the end of a session after this many replies.
fn end_of(step: Step, done: u32) -> SessionEnd
    ensures { result ≡ end_of step done }
{
    match step {
        Step::Last if done == 99 => SessionEnd::LimitReached,
        Step::Next | Step::Last | Step::Ended => SessionEnd::Ended,
        Step::Torn => SessionEnd::Torn,
        Step::Unread | Step::Unwritten => SessionEnd::LinkFault,
    }
}

/// Answers the messages of a link one after another, until one closes the connection, a hundred are answered, the input
/// ends or the link fails.
pub fn session<C: Counter, L: Link, G: Gate>(
    alloc: Global,
    counter: &mut C,
    link: &mut L,
    buffers: &mut Buffers,
    gate: &G,
    worker: u32,
) -> SessionEnd
    requires { most_messages ≤ C.asks_left counter.old }
    ensures met { (bytes : List ℕ) × AreLeft bytes (L.left link.old) × IsSession C.answers
        counter.old counter.new bytes (talk_over L.Link link.old link.new) result }
    ensures left { C.asks_left counter.old ≤ C.asks_left counter.new + most_messages }
    ensures same { C.lender counter.new ≡ C.lender counter.old }
    ensures blamed { Fails (result ≡ SessionEnd.LinkFault) (L.faults link.old) (L.faults link.new) }
{
    buffers.inbox.clear();
    'messages: for done in 0..100u32 {
        let at = At {
            worker,
            message: done + 1,
        };
        match exchange_one(
            alloc,
            counter,
            link,
            &mut buffers.inbox,
            &mut buffers.tools,
            gate,
            at,
        ) {
            Step::Next => {}
            step => return end_of(step, done),
        }
    }
    SessionEnd::LimitReached
}
