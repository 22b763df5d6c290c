// The text of a reply.
ghost use Rattle.std.specs.Prelude.{◌≡◌, ◌<◌, ◌++◌, IfOk, IfSome, length, option_copied};
ghost use Rattle.std.specs.List.{AllByRecursion};
ghost use Rattle.published_texts.specs.Texts.{IsSeatOf, final_text};
ghost use Rattle.reply_texts.specs.Replies.{AreShownOf, IsReplyOf, IsRoundOf, final_line, noted_line, published_line, raised_line, refusal_line, reply_text, shown_text, standing_line, state_line, text_of_round};
ghost use Rattle.step_lines.specs.Lines.{step_name};

use crate::answers::answers_text;
use crate::choices::choices_text;
use crate::cutoffs::cutoffs_text;
use crate::receipts::{
    push_final, push_noted, push_published, push_raised, push_standing, push_state,
};
use crate::refusals::push_refusal;
use crate::register::register_text;
use kept_rows::AllotRow;
use office_base::{CandId, Choice, OutOfMemory, Person, ProgId, Seat, StepKind, Text};
use office_moves::{Refusal, Reply};
use published_texts::{final_text, list_text, reason_text, round_text};
use round_options::Standing;
use rounds::Round;
use seat_matrix::Matrix;
use std::alloc::Global;

/// The text of a reply: the round is the one that a cut published or that was asked for, and the rows are the final admissions.
/// Only the replies to cuts, and to the question what was published, show them.
/// All programmes that the text shows are of the matrix, and the round has an entry for each of the people.
pub fn reply_text(
    alloc: Global,
    matrix: &Matrix,
    people: &[Person],
    round: Option<&Round>,
    rows: &[AllotRow],
    reply: &Reply,
) -> Result<Text, OutOfMemory>
    requires { IsReplyOf matrix.now people.now (option_copied round) rows.now reply.now }
    ensures { IfOk result (λ text.
        text ≡ reply_text matrix.now people.now (option_copied round.entry) rows.now reply.now) }
{
    match reply {
        Reply::Noted {
            cand,
            window,
            turn,
            choice,
        } => noted_text(alloc, *cand, *window, *turn, *choice),
        Reply::Raised {
            window,
            prog,
            step,
            seats,
        } => raised_text(alloc, matrix, *window, *prog, *step, *seats),
        Reply::Published { round: n, seated } => {
            published_text(alloc, matrix, people, round, *n, *seated)
        }
        Reply::Final { admitted } => last_cut_text(alloc, matrix, rows, *admitted),
        Reply::SeatIs {
            cand,
            round: number,
            standing,
            seat,
        } => standing_text(alloc, matrix, *cand, *number, *standing, *seat),
        Reply::WhyIs { cand, prog, answer } => reason_text(alloc, matrix, *cand, *prog, answer),
        Reply::ListIs {
            round: number,
            prog,
            programme,
        } => list_text(alloc, matrix, *number, *prog, programme),
        Reply::RoundIs { .. } => shown_text(alloc, matrix, people, round, rows),
        Reply::ChoicesAre { cand, progs } => choices_text(alloc, matrix, *cand, progs.as_slice()),
        Reply::CutoffsAre {
            round: number,
            prog,
            lines,
        } => cutoffs_text(alloc, matrix, *number, *prog, lines.as_slice()),
        Reply::RegisterIs { person } => register_text(alloc, person),
        Reply::AnswersAre { cand, rows } => answers_text(alloc, *cand, rows.as_slice()),
        Reply::StateIs {
            now,
            rounds,
            published,
        } => state_text(alloc, *now, *rounds, *published),
        Reply::Refused(refusal) => refusal_text(alloc, *refusal),
    }
}

/// The receipt of an answer.
fn noted_text(
    alloc: Global,
    cand: CandId,
    window: u16,
    turn: u16,
    choice: Choice,
) -> Result<Text, OutOfMemory>
    ensures { IfOk result (λ text. text ≡ noted_line cand.0 window turn choice) }
{
    let mut out = Text::new(alloc);
    push_noted(&mut out, cand, window, turn, choice)?;
    Ok(out)
}

/// The receipt of a raise, whose programme is of the matrix.
fn raised_text(
    alloc: Global,
    matrix: &Matrix,
    window: u16,
    prog: ProgId,
    step: StepKind,
    seats: u16,
) -> Result<Text, OutOfMemory>
    requires { prog.0 < length matrix.now.programmes }
    ensures { IfOk result (λ text.
        text ≡ raised_line matrix.now window prog.0 (step_name step) seats) }
{
    let mut out = Text::new(alloc);
    push_raised(&mut out, matrix, window, prog, step, seats)?;
    Ok(out)
}

/// The receipt of a cut that published a round, and the round.
fn published_text(
    alloc: Global,
    matrix: &Matrix,
    people: &[Person],
    round: Option<&Round>,
    number: u16,
    seated: u32,
) -> Result<Text, OutOfMemory>
    requires { IfSome (option_copied round) (IsRoundOf matrix.now people.now) }
    ensures { IfOk result (λ text. text ≡ published_line number seated
        ++ text_of_round matrix.now people.now (option_copied round.entry)) }
{
    let mut out = Text::new(alloc);
    push_published(&mut out, number, seated)?;
    let Some(round) = round else { return Ok(out) };
    let shown = round_text(alloc, matrix, people, round)?;
    out.extend_from_slice(shown.as_slice())?;
    Ok(out)
}

/// The receipt of the last cut, and the final admissions, whose programmes are of the matrix.
fn last_cut_text(
    alloc: Global,
    matrix: &Matrix,
    rows: &[AllotRow],
    admitted: u32,
) -> Result<Text, OutOfMemory>
    requires { AllByRecursion (λ row. row.prog.0 < length matrix.now.programmes) rows.now }
    ensures { IfOk result (λ text. text ≡ final_line admitted ++ final_text matrix.now rows.now) }
{
    let mut out = Text::new(alloc);
    push_final(&mut out, admitted)?;
    let text = final_text(alloc, matrix, rows)?;
    out.extend_from_slice(text.as_slice())?;
    Ok(out)
}

/// Returns what was published under a number: the text of the round, or of the final admissions if there is no round.
/// Their programmes are of the matrix, and the round has an entry for each of the people.
pub fn shown_text(
    alloc: Global,
    matrix: &Matrix,
    people: &[Person],
    round: Option<&Round>,
    rows: &[AllotRow],
) -> Result<Text, OutOfMemory>
    requires { AreShownOf matrix.now people.now (option_copied round) rows.now }
    ensures { IfOk result (λ text.
        text ≡ shown_text matrix.now people.now (option_copied round.entry) rows.now) }
{
    match round {
        Some(round) => round_text(alloc, matrix, people, round),
        None => final_text(alloc, matrix, rows),
    }
}

/// Returns the text of a candidate's standing and of the seat, whose programme is of the matrix.
fn standing_text(
    alloc: Global,
    matrix: &Matrix,
    cand: CandId,
    number: u16,
    standing: Standing,
    seat: Option<Seat>,
) -> Result<Text, OutOfMemory>
    requires { IsSeatOf matrix.now seat }
    ensures { IfOk result (λ text. text ≡ standing_line matrix.now cand.0 number standing seat) }
{
    let mut out = Text::new(alloc);
    push_standing(&mut out, matrix, cand, number, standing, seat)?;
    Ok(out)
}

/// How far the office is.
fn state_text(alloc: Global, window: u16, rounds: u16, published: u16) -> Result<Text, OutOfMemory>
    ensures { IfOk result (λ text. text ≡ state_line window rounds published) }
{
    let mut out = Text::new(alloc);
    push_state(
        &mut out,
        u32::from(window),
        u32::from(rounds),
        u32::from(published),
    )?;
    Ok(out)
}

/// Why a request changes nothing.
fn refusal_text(alloc: Global, refusal: Refusal) -> Result<Text, OutOfMemory>
    ensures { IfOk result (λ text. text ≡ refusal_line refusal) }
{
    let mut out = Text::new(alloc);
    push_refusal(&mut out, refusal)?;
    Ok(out)
}
