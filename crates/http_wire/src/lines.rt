// The lines of a head, each put after what is there. The room for them is there.
ghost use Rattle.std.specs.Prelude.{◌≡◌, ◌≤◌, ◌+◌, ◌++◌, Option, Bool, length, option_map, vec_len, vec_capacity};
ghost use Rattle.http.specs.StatusCode.{IsStatusCode};
ghost use Rattle.http_wire.specs.Methods.{method_name};
ghost use Rattle.http_wire.specs.Statuses.{phrase};
ghost use Rattle.http_wire.specs.Replies.{line, status_line, type_line, length_line, allow_line, close_line, reply_head};

use crate::Method;
use http::StatusCode;
use itoa::Buffer;

/// Puts bytes.
pub fn put(out: &mut Vec<u8>, more: &[u8])
    requires { vec_len out.old + length more.now ≤ vec_capacity out.old }
    ensures items { out.new.items ≡ out.old.items ++ more.now }
    ensures len { vec_len out.new ≡ vec_len out.old + length more.now }
    ensures room { vec_capacity out.old ≤ vec_capacity out.new }
{
    if out.extend_from_slice(more).is_err() {
        unreachable!("the room is there")
    }
}

// The phrase of a status.
fn phrase_of(code: StatusCode) -> &'static str
    requires { IsStatusCode code }
    ensures text { result.now ≡ phrase code }
    ensures short { length result.now ≤ 31 }
{
    code.canonical_reason().unwrap_or("")
}

#[tactic(auto, unfolding(crate::specs::Replies::status_line))]
fn put_status_line(out: &mut Vec<u8>, status: u16)
    requires status { IsStatusCode status }
    requires room { vec_len out.old + 46 ≤ vec_capacity out.old }
    ensures items { out.new.items ≡ out.old.items ++ status_line status }
    ensures len { vec_len out.new ≤ vec_len out.old + 46 }
    ensures room { vec_capacity out.old ≤ vec_capacity out.new }
{
    let Ok(code) = StatusCode::from_u16(status) else {
        unreachable!("it is a status")
    };
    put(out, b"HTTP/1.1 ");
    put(out, code.as_str().as_bytes());
    put(out, b" ");
    put(out, phrase_of(code).as_bytes());
    put(out, b"\r\n");
}

#[tactic(auto, unfolding(crate::specs::Replies::type_line))]
fn put_type_line(out: &mut Vec<u8>, len: Option<usize>)
    requires room { vec_len out.old + 32 ≤ vec_capacity out.old }
    ensures items { out.new.items ≡ out.old.items ++ type_line len }
    ensures len { vec_len out.new ≤ vec_len out.old + 32 }
    ensures room { vec_capacity out.old ≤ vec_capacity out.new }
{
    let Some(_) = len else {
        return;
    };
    put(out, b"Content-Type: application/json\r\n");
}

#[tactic(auto, unfolding(crate::specs::Replies::length_line))]
fn put_length_line(out: &mut Vec<u8>, len: usize)
    requires room { vec_len out.old + 58 ≤ vec_capacity out.old }
    ensures items { out.new.items ≡ out.old.items ++ length_line len }
    ensures len { vec_len out.new ≤ vec_len out.old + 58 }
    ensures room { vec_capacity out.old ≤ vec_capacity out.new }
{
    let mut buffer = Buffer::new();
    put(out, b"Content-Length: ");
    put(out, buffer.format(len).as_bytes());
    put(out, b"\r\n");
}

#[tactic(auto, unfolding(crate::specs::Replies::allow_line))]
fn put_allow_line(out: &mut Vec<u8>, allow: Option<Method>)
    requires room { vec_len out.old + 13 ≤ vec_capacity out.old }
    ensures items { out.new.items ≡ out.old.items ++ allow_line (option_map method_name allow) }
    ensures len { vec_len out.new ≤ vec_len out.old + 13 }
    ensures room { vec_capacity out.old ≤ vec_capacity out.new }
{
    let Some(method) = allow else {
        return;
    };
    put(out, b"Allow: ");
    put(out, method.name());
    put(out, b"\r\n");
}

#[tactic(auto, unfolding(crate::specs::Replies::close_line))]
fn put_close_line(out: &mut Vec<u8>, close: bool)
    requires room { vec_len out.old + 19 ≤ vec_capacity out.old }
    ensures items { out.new.items ≡ out.old.items ++ close_line close }
    ensures len { vec_len out.new ≤ vec_len out.old + 19 }
    ensures room { vec_capacity out.old ≤ vec_capacity out.new }
{
    if !close {
        return;
    }
    put(out, b"Connection: close\r\n");
}

/// Puts the head of a reply: 170 bytes at most.
#[tactic(auto, unfolding(crate::specs::Replies::reply_head))]
pub fn put_head(
    out: &mut Vec<u8>,
    status: u16,
    len: Option<usize>,
    allow: Option<Method>,
    close: bool,
)
    requires status { IsStatusCode status }
    requires room { vec_len out.old + 170 ≤ vec_capacity out.old }
    ensures items { out.new.items
        ≡ out.old.items ++ reply_head status len (option_map method_name allow) close }
    ensures len { vec_len out.new ≤ vec_len out.old + 170 }
    ensures room { vec_capacity out.old ≤ vec_capacity out.new }
{
    put_status_line(out, status);
    put_type_line(out, len);
    put_length_line(out, len.unwrap_or(0));
    put_allow_line(out, allow);
    put_close_line(out, close);
    put(out, b"\r\n");
}
