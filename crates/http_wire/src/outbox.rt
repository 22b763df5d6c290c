// One reply, ready to be written.
ghost use Rattle.std.specs.Prelude.{◌≡◌, ◌≤◌, ◌↔◌, [], Some, None, length, option_map, IfOk, IsTrue};
ghost use Rattle.std.specs.Bool.{OnTrue, OnFalse};
ghost use Rattle.http.specs.StatusCode.{IsStatusCode};
ghost use Rattle.http_wire.specs.Methods.{method_name};
ghost use Rattle.http_wire.specs.Statuses.{fault_status};
ghost use Rattle.http_wire.specs.Replies.{reply_head, reply_text, fault_body};

use crate::lines::{put, put_head};
use crate::{Fault, Method};
use office_base::OutOfMemory;
use std::alloc::Global;
use std::marker::Model;

/// How many bytes of a body have room after their head.
pub const BODY_ROOM: usize = 8_192;

// Room for a head and for such a body.
const ROOM: usize = 8_448;

/// The bytes of one reply. It reserves its room when it is made, so putting a reply into it never runs out of memory.
#[derive(Drop)]
pub struct Outbox {
    bytes: Vec<u8>,
}

impl Model for Outbox {
    ghost use Rattle.std.specs.Prelude.{◌≤◌, ℕ, List, vec_capacity};

    ghost Value = { List ℕ };

    ghost view = { λ a. a.bytes.items };

    ghost invariant = { λ a. 8448 ≤ vec_capacity a.bytes };
}

impl Outbox {
    /// An outbox without a reply.
    pub fn new(alloc: Global) -> Result<Outbox, OutOfMemory>
        ensures { IfOk result (λ outbox. outbox ≡ []) }
    {
        Ok(Outbox {
            bytes: Vec::with_capacity(alloc, ROOM)?,
        })
    }

    /// The bytes of the reply that was put last.
    pub fn bytes(&self) -> &[u8]
        ensures { result.now ≡ self.now }
    {
        self.bytes.as_slice()
    }

    /// Puts a reply with a body, in place of what was there. It answers whether the body is inside: where it has more than `BODY_ROOM`
    /// bytes, the head alone was put, and the body is to be written after it.
    pub fn reply(&mut self, status: u16, body: &[u8], close: bool) -> bool
        requires { IsStatusCode status }
        ensures fits { IsTrue result ↔ (length body.now ≤ BODY_ROOM) }
        ensures whole { OnTrue result (self.new ≡ reply_text status (Some body.now) None close) }
        ensures head { OnFalse result
            (self.new ≡ reply_head status (Some (length body.now)) None close) }
    {
        self.bytes.clear();
        put_head(&mut self.bytes, status, Some(body.len()), None, close);
        if body.len() > BODY_ROOM {
            return false;
        }
        put(&mut self.bytes, body);
        true
    }

    /// Puts a reply without a body, in place of what was there: a request that does not reach the office is refused so.
    pub fn refuse(&mut self, status: u16, allow: Option<Method>, close: bool)
        requires { IsStatusCode status }
        ensures { self.new ≡ reply_text status None (option_map method_name allow) close }
    {
        self.bytes.clear();
        put_head(&mut self.bytes, status, None, allow, close);
    }

    /// Puts the reply that tells a fault, in place of what was there.
    pub fn fail(&mut self, fault: Fault, close: bool)
        ensures { self.new ≡ reply_text (fault_status fault) (Some (fault_body fault)) None close }
    {
        if !self.reply(fault.status(), fault.body(), close) {
            unreachable!("the body of a fault is short")
        }
    }
}
