// What the bodies of requests ask.
ghost use Rattle.std.specs.Prelude.{◌≡◌, ◌<◌, IfOk, OnErr, length, option_copied, option_map};
ghost use Rattle.serde_json.specs.View.{view};
ghost use Rattle.http_asks.specs.Bodies.{answer_in, ask_in, cut_in, data_of, number_in, raise_in, text_in};

use crate::pages::Page;
use office_asks::Ask;
use office_base::limits::{LAST_ID, LAST_TURN, LAST_WINDOW, MOST_STEP_SEATS};
use office_base::{CandId, Code, OutOfMemory};
use office_text::{read_choice, read_step};
use serde_json::Value;
use std::alloc::Global;

/// Returns the value that a body is, and None if it is no text of JSON.
/// Memory may run out for any body that is not empty.
pub fn read_body(alloc: Global, body: &[u8]) -> Result<Option<Value>, OutOfMemory>
    ensures value { IfOk result (λ value. option_map view value ≡ data_of body.now) }
    ensures memory { OnErr result (0 < length body.now) }
{
    match Value::from_slice(alloc, body) {
        Ok(value) => Ok(Some(value)),
        Err(fault) if fault.is_memory() => Err(OutOfMemory),
        Err(_) => Ok(None),
    }
}

/// Returns what a page asks with the value of a body.
/// None if the value lacks something that the page needs, or has it out of its range.
/// Members that the page does not need are ignored.
pub fn ask_in(page: &Page, value: &Value) -> Option<Ask>
    ensures { result ≡ ask_in page.now (view value.now) }
{
    match page {
        Page::Answers => answer_in(value),
        Page::Cuts => cut_in(value),
        Page::Raises => raise_in(value),
        Page::Reads(ask) => Some(*ask),
    }
}

/// Returns what the body of an answer asks.
fn answer_in(value: &Value) -> Option<Ask>
    ensures { result ≡ answer_in (view value.now) }
{
    let cand = number_in(value, "cand", 1, LAST_ID)?;
    let window = number_in(value, "window", 0, LAST_WINDOW)?;
    let turn = number_in(value, "turn", 1, LAST_TURN)?;
    let choice = read_choice(text_in(value, "choice")?)?;
    Some(Ask::Answer {
        cand: CandId(cand),
        window: window as u16,
        turn: turn as u16,
        choice,
    })
}

/// Returns what the body of a cut asks.
fn cut_in(value: &Value) -> Option<Ask>
    ensures { result ≡ cut_in (view value.now) }
{
    let window = number_in(value, "window", 0, LAST_WINDOW)?;
    Some(Ask::Cut {
        window: window as u16,
    })
}

/// Returns what the body of a raise asks.
fn raise_in(value: &Value) -> Option<Ask>
    ensures { result ≡ raise_in (view value.now) }
{
    let window = number_in(value, "window", 0, LAST_WINDOW)?;
    let prog = Code::read(text_in(value, "programme")?)?;
    let step = read_step(text_in(value, "step")?)?;
    let seats = number_in(value, "seats", 1, MOST_STEP_SEATS)?;
    Some(Ask::Raise {
        window: window as u16,
        prog,
        step,
        seats: seats as u16,
    })
}

/// Returns the whole number of that key, if it lies from `low` to `high`.
fn number_in(value: &Value, key: &str, low: u32, high: u32) -> Option<u32>
    ensures { result ≡ number_in key.now low high (view value.now) }
{
    let number = value.get(key).and_then(Value::as_u64)?;
    if u64::from(low) <= number && number <= u64::from(high) {
        Some(number as u32)
    } else {
        None
    }
}

/// Returns the text of that key.
fn text_in<'a>(value: &'a Value, key: &str) -> Option<&'a [u8]>
    ensures { option_copied result ≡ text_in key.now (view value.now) }
{
    let text = value.get(key).and_then(Value::as_str)?;
    Some(text.as_bytes())
}
