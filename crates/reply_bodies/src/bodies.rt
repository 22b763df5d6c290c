// The body of a reply: its object, and the compact text of it.
ghost use Rattle.std.specs.Prelude.{◌≡◌, ◌<◌, IfOk, length, option_copied};
ghost use Rattle.serde_json.specs.View.{view};
ghost use Rattle.published_texts.specs.Texts.{IsAnswerOf};
ghost use Rattle.reply_texts.specs.Replies.{HasTraitSlots, IsReplyOf};
ghost use Rattle.reply_bodies.specs.Bodies.{final_data, list_data, published_data, raised_data, reply_body, reply_data, why_data};
ghost use Rattle.reply_bodies.specs.Built.{IsBuilt};

use crate::answers::answers_value;
use crate::choices::choices_value;
use crate::cutoffs::cutoffs_value;
use crate::refusals::refused_value;
use crate::register::register_value;
use crate::shown::round_value;
use crate::spelled::{noted_text, seat_text, state_text};
use crate::texts::{answers_are_ascii, code_value, codes_are_ascii, text_value};
use kept_rows::AllotRow;
use office_base::{CandId, OutOfMemory, ProgId, StepKind, Text};
use office_moves::Reply;
use programme_lists::Programme;
use published_texts::{list_text, reason_text};
use reasons::WhyAnswer;
use rounds::Round;
use season_file::Season;
use seat_matrix::Matrix;
use serde_json::{Value, json};
use std::alloc::Global;
use step_lines::step_name;

/// Returns the body of a reply. The programmes that it names are of the season's matrix,
/// and each slot of its lists is the number of a trait.
/// The round and the rows are those that its text shows, if it has one.
pub fn reply_json(
    alloc: Global,
    season: &Season,
    round: Option<&Round>,
    rows: &[AllotRow],
    reply: &Reply,
) -> Result<Text, OutOfMemory>
    requires { IsReplyOf season.now.matrix season.now.register.people
        (option_copied round) rows.now reply.now }
    ensures { IfOk result (λ text. text ≡ reply_body season.now.matrix
        season.now.register.people (option_copied round.entry) rows.now reply.now) }
{
    match reply {
        Reply::Noted {
            cand,
            window,
            turn,
            choice,
        } => noted_text(alloc, *cand, *window, *turn, *choice),
        Reply::SeatIs {
            cand,
            round: number,
            standing,
            seat,
        } => seat_text(alloc, &season.matrix, *cand, *number, *standing, *seat),
        Reply::StateIs {
            now,
            rounds,
            published,
        } => state_text(alloc, *now, *rounds, *published),
        _ => built_text(alloc, season, round, rows, reply),
    }
}

/// Returns the body of a reply whose object is built first.
fn built_text(
    alloc: Global,
    season: &Season,
    round: Option<&Round>,
    rows: &[AllotRow],
    reply: &Reply,
) -> Result<Text, OutOfMemory>
    requires built { IsBuilt reply.now }
    requires of { IsReplyOf season.now.matrix season.now.register.people
        (option_copied round) rows.now reply.now }
    ensures { IfOk result (λ text. text ≡ reply_body season.now.matrix
        season.now.register.people (option_copied round.entry) rows.now reply.now) }
{
    let value = reply_value(alloc, season, round, rows, reply)?;
    let text = value.to_vec(alloc)?;
    Ok(Text::from_vec(text))
}

/// Returns the object of a reply that is not spelled straight into its text.
fn reply_value(
    alloc: Global,
    season: &Season,
    round: Option<&Round>,
    rows: &[AllotRow],
    reply: &Reply,
) -> Result<Value, OutOfMemory>
    requires built { IsBuilt reply.now }
    requires of { IsReplyOf season.now.matrix season.now.register.people
        (option_copied round) rows.now reply.now }
    ensures { IfOk result (λ value. view value ≡ reply_data season.now.matrix
        season.now.register.people (option_copied round.entry) rows.now reply.now) }
{
    let matrix = &season.matrix;
    match reply {
        Reply::Raised {
            window,
            prog,
            step,
            seats,
        } => raised_value(alloc, matrix, *window, *prog, *step, *seats),
        Reply::Published {
            round: number,
            seated,
        } => published_value(alloc, *number, *seated),
        Reply::Final { admitted } => final_value(alloc, *admitted),
        Reply::WhyIs { cand, prog, answer } => why_value(alloc, matrix, *cand, *prog, answer),
        Reply::ListIs {
            round: number,
            prog,
            programme,
        } => list_value(alloc, matrix, *number, *prog, programme),
        Reply::RoundIs { round: number } => round_value(alloc, season, round, rows, *number),
        Reply::ChoicesAre { cand, progs } => choices_value(alloc, matrix, *cand, progs.as_slice()),
        Reply::CutoffsAre {
            round: number,
            prog,
            lines,
        } => cutoffs_value(alloc, matrix, *number, *prog, lines.as_slice()),
        Reply::RegisterIs { person } => register_value(alloc, person),
        Reply::AnswersAre { cand, rows } => answers_value(alloc, *cand, rows.as_slice()),
        Reply::Refused(refusal) => refused_value(alloc, *refusal),
        Reply::Noted { .. } | Reply::SeatIs { .. } | Reply::StateIs { .. } => {
            unreachable!("it is spelled straight into its text")
        }
    }
}

/// Returns the receipt of a raise, whose programme is of the matrix.
fn raised_value(
    alloc: Global,
    matrix: &Matrix,
    window: u16,
    prog: ProgId,
    step: StepKind,
    seats: u16,
) -> Result<Value, OutOfMemory>
    requires { prog.0 < length matrix.now.programmes }
    ensures { IfOk result (λ value. view value ≡ raised_data matrix.now window prog.0 step seats) }
{
    let code = code_value(alloc, matrix, prog)?;
    let step = step_name(step);
    Ok(
        json!(in alloc; {"programme": &code, "reply": "raised", "seats": seats, "step": step, "window": window})?,
    )
}

/// Returns the receipt of a cut that published a round.
fn published_value(alloc: Global, round: u16, seated: u32) -> Result<Value, OutOfMemory>
    ensures { IfOk result (λ value. view value ≡ published_data round seated) }
{
    Ok(json!(in alloc; {"reply": "published", "round": round, "seated": seated})?)
}

/// Returns the receipt of the last cut.
fn final_value(alloc: Global, admitted: u32) -> Result<Value, OutOfMemory>
    ensures { IfOk result (λ value. view value ≡ final_data admitted) }
{
    Ok(json!(in alloc; {"admitted": admitted, "reply": "final"})?)
}

/// Returns why a candidate has no seat of a programme, or has one.
fn why_value(
    alloc: Global,
    matrix: &Matrix,
    cand: CandId,
    prog: ProgId,
    answer: &WhyAnswer,
) -> Result<Value, OutOfMemory>
    requires programme { prog.0 < length matrix.now.programmes }
    requires answer { IsAnswerOf matrix.now answer.now }
    ensures { IfOk result (λ value. view value ≡ why_data matrix.now cand.0 prog.0 answer.now) }
{
    codes_are_ascii(matrix, prog);
    answers_are_ascii(matrix, answer);
    let code = code_value(alloc, matrix, prog)?;
    let words = reason_text(alloc, matrix, cand, prog, answer)?;
    let text = text_value(alloc, words.as_slice())?;
    let cand = cand.0;
    Ok(json!(in alloc; {"cand": cand, "programme": &code, "reply": "why", "text": &text})?)
}

/// Returns the lists of a programme in a round.
fn list_value(
    alloc: Global,
    matrix: &Matrix,
    round: u16,
    prog: ProgId,
    programme: &Programme,
) -> Result<Value, OutOfMemory>
    requires programme { prog.0 < length matrix.now.programmes }
    requires slots { HasTraitSlots programme.now }
    ensures { IfOk result (λ value. view value ≡ list_data matrix.now round prog.0 programme.now) }
{
    codes_are_ascii(matrix, prog);
    let code = code_value(alloc, matrix, prog)?;
    let words = list_text(alloc, matrix, round, prog, programme)?;
    let text = text_value(alloc, words.as_slice())?;
    Ok(json!(in alloc; {"programme": &code, "reply": "list", "round": round, "text": &text})?)
}
