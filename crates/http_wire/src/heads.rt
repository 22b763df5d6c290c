// The head of a message, read by the grammar of `httparse`.
ghost use Rattle.std.specs.Prelude.{◌≡◌, IfSome, IfNone};
ghost use Rattle.httparse.specs.Grammar.{RequestHead};
ghost use Rattle.http_wire.specs.Messages.{Reads};
ghost use Rattle.http_wire.specs.Told.{IsHeadOf};

use crate::fields::Fields;
use crate::message::Head;
use httparse::Status;
use httparse::spans::{HeaderSpan, parse_request};

/// The head that begins the bytes and has at most 64 fields. None where there is none.
pub fn read_head<'a>(bytes: &'a [u8], room: &'a mut [HeaderSpan; 64]) -> Option<Head<'a>>
    ensures some { IfSome result (λ read. (head : RequestHead)
        × Reads bytes.now head × IsHeadOf read head) }
    ensures none { IfNone result ((head : RequestHead) → Reads bytes.now head → ⊥) }
{
    match parse_request(bytes, room) {
        Ok(Status::Complete(spans)) => Some(Head {
            method: spans.method.of(bytes),
            target: spans.path.of(bytes),
            minor: spans.version,
            fields: Fields::at(bytes, &room[..spans.headers]),
        }),
        _ => None,
    }
}
