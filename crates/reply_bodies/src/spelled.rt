// Bodies that are spelled straight into their text:
// those of `state`, `seat` and of an answer, which are asked for most often.
ghost use Rattle.std.specs.Prelude.{◌≡◌, ◌++◌, true, IfOk, OnOk, codes};
ghost use Rattle.std.specs.Fmt.{decimal};
ghost use Rattle.serde_json.specs.Data.{string};
ghost use Rattle.serde_json.specs.Written.{compact_text};
ghost use Rattle.office_base.specs.Codes.{is_code};
ghost use Rattle.published_texts.specs.Texts.{IsSeatOf};
ghost use Rattle.reply_bodies.specs.Bodies.{noted_data, seat_data, seat_programme, seat_step, state_data};

use office_base::{CandId, Choice, OutOfMemory, Seat, Text};
use office_text::push_number;
use reply_texts::{choice_name, standing_name};
use round_options::Standing;
use seat_matrix::Matrix;
use std::alloc::Global;
use step_lines::seat_kind_name;

// Room for the longest of these bodies, so that a text allocates once.
const LONGEST_BODY: usize = 160;

/// Returns the body of a receipt of an answer.
pub(crate) fn noted_text(
    alloc: Global,
    cand: CandId,
    window: u16,
    turn: u16,
    choice: Choice,
) -> Result<Text, OutOfMemory>
    ensures { IfOk result (λ text. text ≡ compact_text (noted_data cand.0 window turn choice)) }
{
    let mut text = Text::with_capacity(alloc, LONGEST_BODY)?;
    put_noted(&mut text, cand, window, turn, choice)?;
    Ok(text)
}

/// Returns the body of the standing of a candidate, and of the seat, whose programme is of the matrix.
pub(crate) fn seat_text(
    alloc: Global,
    matrix: &Matrix,
    cand: CandId,
    round: u16,
    standing: Standing,
    seat: Option<Seat>,
) -> Result<Text, OutOfMemory>
    requires { IsSeatOf matrix.now seat }
    ensures { IfOk result (λ text.
        text ≡ compact_text (seat_data matrix.now cand.0 round standing seat)) }
{
    let mut text = Text::with_capacity(alloc, LONGEST_BODY)?;
    put_seat(&mut text, matrix, cand, round, standing, seat)?;
    Ok(text)
}

/// Returns the body of how far the office is.
pub(crate) fn state_text(
    alloc: Global,
    now: u16,
    rounds: u16,
    published: u16,
) -> Result<Text, OutOfMemory>
    ensures { IfOk result (λ text. text ≡ compact_text (state_data now rounds published)) }
{
    let mut text = Text::with_capacity(alloc, LONGEST_BODY)?;
    put_state(&mut text, now, rounds, published)?;
    Ok(text)
}

/// Puts the receipt of an answer.
fn put_noted(
    out: &mut Text,
    cand: CandId,
    window: u16,
    turn: u16,
    choice: Choice,
) -> Result<(), OutOfMemory>
    ensures { OnOk result
        (out.new ≡ out.old ++ compact_text (noted_data cand.0 window turn choice)) }
{
    put_count(out, b"{\"cand\":", cand.0)?;
    put_quoted(out, b",\"choice\":", choice_name(choice).as_bytes())?;
    put_count(out, b",\"reply\":\"noted\",\"turn\":", u32::from(turn))?;
    put_count(out, b",\"window\":", u32::from(window))?;
    out.extend_from_slice(b"}")
}

/// Puts the standing of a candidate, and the seat, whose programme is of the matrix.
fn put_seat(
    out: &mut Text,
    matrix: &Matrix,
    cand: CandId,
    round: u16,
    standing: Standing,
    seat: Option<Seat>,
) -> Result<(), OutOfMemory>
    requires { IsSeatOf matrix.now seat }
    ensures { OnOk result
        (out.new ≡ out.old ++ compact_text (seat_data matrix.now cand.0 round standing seat)) }
{
    put_count(out, b"{\"cand\":", cand.0)?;
    put_programme(out, matrix, seat)?;
    put_count(out, b",\"reply\":\"seat\",\"round\":", u32::from(round))?;
    put_quoted(out, b",\"standing\":", standing_name(standing).as_bytes())?;
    put_step(out, seat)?;
    out.extend_from_slice(b"}")
}

/// Puts how far the office is.
fn put_state(out: &mut Text, now: u16, rounds: u16, published: u16) -> Result<(), OutOfMemory>
    ensures { OnOk result (out.new ≡ out.old ++ compact_text (state_data now rounds published)) }
{
    put_count(out, b"{\"now\":", u32::from(now))?;
    put_count(out, b",\"published\":", u32::from(published))?;
    put_count(out, b",\"reply\":\"state\",\"rounds\":", u32::from(rounds))?;
    out.extend_from_slice(b"}")
}

/// Puts the member of the programme of a seat, or null without one.
fn put_programme(out: &mut Text, matrix: &Matrix, seat: Option<Seat>) -> Result<(), OutOfMemory>
    requires { IsSeatOf matrix.now seat }
    ensures { OnOk result (out.new
        ≡ (out.old ++ codes ",\"programme\":") ++ compact_text (seat_programme matrix.now seat)) }
{
    match seat {
        None => put_null(out, b",\"programme\":"),
        Some(seat) => {
            let code = matrix.code(seat.prog);
            put_quoted(out, b",\"programme\":", code.bytes())
        }
    }
}

/// Puts the member of the step of a seat, or null without one.
fn put_step(out: &mut Text, seat: Option<Seat>) -> Result<(), OutOfMemory>
    ensures { OnOk result
        (out.new ≡ (out.old ++ codes ",\"step\":") ++ compact_text (seat_step seat)) }
{
    match seat {
        None => put_null(out, b",\"step\":"),
        Some(seat) => put_quoted(out, b",\"step\":", seat_kind_name(seat.step).as_bytes()),
    }
}

/// Puts some bytes and a number.
fn put_count(out: &mut Text, before: &[u8], count: u32) -> Result<(), OutOfMemory>
    ensures { OnOk result (out.new ≡ (out.old ++ before.now) ++ decimal count) }
{
    out.extend_from_slice(before)?;
    push_number(out, count)
}

/// Puts some bytes and null.
fn put_null(out: &mut Text, before: &[u8]) -> Result<(), OutOfMemory>
    ensures { OnOk result (out.new ≡ (out.old ++ before.now) ++ codes "null") }
{
    out.extend_from_slice(before)?;
    out.extend_from_slice(b"null")
}

/// Puts some bytes and a code as a string. The bytes of a code need no escape, and those of our words are spelled as codes are.
fn put_quoted(out: &mut Text, before: &[u8], code: &[u8]) -> Result<(), OutOfMemory>
    requires { is_code code.now ≡ true }
    ensures { OnOk result (out.new ≡ (out.old ++ before.now) ++ compact_text (string code.now)) }
{
    out.extend_from_slice(before)?;
    out.extend_from_slice(b"\"")?;
    out.extend_from_slice(code)?;
    out.extend_from_slice(b"\"")
}
