// The verdict on a message: something that it asks, or a status that refuses it.
ghost use Rattle.std.specs.Prelude.{◌≡◌, true, IfOk, OnErr, option_copied};
ghost use Rattle.http_wire.specs.Told.{told_fields, told_message};
ghost use Rattle.http_asks.specs.Bodies.{ask_of};
ghost use Rattle.http_asks.specs.Told.{told};
ghost use Rattle.http_asks.specs.Verdicts.{needs_memory, reads_body, token_in, verdict_of};

use crate::bodies::{ask_in, read_body};
use crate::pages::{Page, page_of};
use crate::router::Routes;
use http_wire::{Fields, HeldMessage, Method};
use office_asks::Ask;
use office_base::OutOfMemory;
use std::alloc::Global;

/// The verdict on a message. The connection may continue after either.
#[derive(Clone, Copy, PartialEq, Eq)]
pub enum Judged {
    /// It is refused with this status: 404 if its target names no page.
    /// Otherwise 405, with the method that the page has, if its method is another.
    /// Otherwise 400, if its body is not what the page needs.
    Refused { status: u16, allow: Option<Method> },
    /// It asks this of the office, with its token.
    Asked(Ask),
}

/// Returns the token of a message: the value of its first field `X-Office-Token`, if it has one.
pub fn token<'a>(fields: &Fields<'a>) -> Option<&'a [u8]>
    ensures { option_copied result ≡ token_in (told_fields fields.now) }
{
    fields.first(b"x-office-token")
}

/// Returns the verdict on a message. What it asks, it asks with its `token`.
/// Memory may run out for a body that is read, and for nothing else.
pub fn judge(
    alloc: Global,
    routes: &Routes,
    message: &HeldMessage<'_>,
) -> Result<Judged, OutOfMemory>
    ensures exact { IfOk result (λ judged.
        told (told_message message.now) judged ≡ verdict_of (told_message message.now)) }
    ensures memory { OnErr result (reads_body (told_message message.now) ≡ true) }
{
    let Ok(target) = str::from_utf8(message.target) else {
        unreachable!("the target of a message is text")
    };
    let Some(page) = page_of(routes, target) else {
        return Ok(Judged::Refused {
            status: 404,
            allow: None,
        });
    };
    let method = page.method();
    if message.method != method.name() {
        return Ok(Judged::Refused {
            status: 405,
            allow: Some(method),
        });
    }
    match read_ask(alloc, &page, message.body)? {
        None => Ok(Judged::Refused {
            status: 400,
            allow: None,
        }),
        Some(ask) => Ok(Judged::Asked(ask)),
    }
}

/// Returns what a page asks with a body. None if the body is not what the page needs.
fn read_ask(alloc: Global, page: &Page, body: &[u8]) -> Result<Option<Ask>, OutOfMemory>
    ensures value { IfOk result (λ asked. asked ≡ ask_of page.now body.now) }
    ensures memory { OnErr result (needs_memory page.now body.now ≡ true) }
{
    if let Page::Reads(ask) = page {
        return Ok(Some(*ask));
    }
    match read_body(alloc, body)? {
        Some(value) => Ok(ask_in(page, &value)),
        None => Ok(None),
    }
}
