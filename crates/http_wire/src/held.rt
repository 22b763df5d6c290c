// What the bytes that a connection holds come to.
ghost use Rattle.std.specs.Prelude.{◌≡◌, ◌≤◌, Some, take, length};
ghost use Rattle.http_wire.specs.Limits.{most_head_bytes};
ghost use Rattle.http_wire.specs.HeadEnds.{head_len};
ghost use Rattle.http_wire.specs.Messages.{ComesTo, Stays};
ghost use Rattle.http_wire.specs.Told.{told};

use crate::head_ends::head_len;
use crate::heads::read_head;
use crate::message::{Arrived, HeldMessage};
use httparse::spans::HeaderSpan;

/// How many bytes the head of a message may have.
const MOST_HEAD_BYTES: usize = 8_192;

/// What the bytes that are held so far come to. A whole message and a refusal stay so whatever bytes follow. `room` is for the
/// places of the fields; what it held before does not matter.
pub fn held_message<'a>(held: &'a [u8], room: &'a mut [HeaderSpan; 64]) -> Arrived<'a>
    ensures exact { ComesTo held.now (told result) }
    ensures stays { Stays held.now (told result) }
{
    let first = &held[..MOST_HEAD_BYTES.min(held.len())];
    match head_len(first) {
        Some(end) => after_head(held, end, room),
        None if held.len() < MOST_HEAD_BYTES => Arrived::More,
        None => Arrived::Refused(431),
    }
}

/// What held bytes come to whose head ended after `end` of them.
fn after_head<'a>(held: &'a [u8], end: usize, room: &'a mut [HeaderSpan; 64]) -> Arrived<'a>
    requires ends { head_len (take most_head_bytes held.now) ≡ Some end }
    requires within { end ≤ length held.now }
    ensures { ComesTo held.now (told result) }
{
    let (bytes, rest) = held.split_at(end);
    let Some(head) = read_head(bytes, room) else {
        return Arrived::Refused(400);
    };
    match head.fields.body_len(head.method) {
        Err(status) => Arrived::Refused(status),
        Ok(len) if rest.len() < len => Arrived::More,
        Ok(len) => Arrived::Whole(HeldMessage {
            method: head.method,
            target: head.target,
            minor: head.minor,
            fields: head.fields,
            body: &rest[..len],
            len: end + len,
        }),
    }
}
