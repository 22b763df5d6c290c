// The requests of a generated season.
ghost use Rattle.std.specs.Prelude.{◌≡◌, ◌≤◌, ◌+◌, ◌++◌, OnOk};
ghost use Rattle.office_base.specs.Limits.{most_generated};
ghost use Rattle.season_generator.specs.Bundle.{answer_row, choice_name, cut_row, lines, requests_text};
ghost use Rattle.season_generator.specs.Draws.{state_after, drawn};

use crate::draws::Draws;
use crate::spelling::push_field;
use office_base::{OutOfMemory, Text};
use office_text::push_number;

/// How many rounds a generated season has.
const ROUNDS: u32 = 6;

/// Puts the requests of `n` candidates and of the clerk. The answers are drawn from here on.
pub(crate) fn push_requests(out: &mut Text, mut draws: Draws, n: u32) -> Result<(), OutOfMemory>
    requires { n ≤ most_generated }
    ensures { OnOk result (out.new ≡ out.old ++ requests_text n draws.state) }
{
    out.extend_from_slice(b"[requests]\n")?;
    push_cut(out, 0)?;
    for before in 0..ROUNDS {
        push_answers(out, &mut draws, n, before + 1)?;
        push_cut(out, before + 1)?;
    }
    Ok(())
}

/// Puts an answer of each candidate.
fn push_answers(out: &mut Text, draws: &mut Draws, n: u32, window: u32) -> Result<(), OutOfMemory>
    requires { n ≤ most_generated }
    ensures rows { OnOk result (out.new ≡ out.old ++ lines n (λ candidate. answer_row window
        (candidate + 1) (choice_name (drawn 20 (state_after candidate draws.old.state))))) }
    ensures state { OnOk result (draws.new.state ≡ state_after n draws.old.state) }
{
    for candidate in 0..n {
        let number = draws.draw(20);
        push_answer(out, window, candidate + 1, choice_name(number))?;
    }
    Ok(())
}

/// The answer of a number below 20.
fn choice_name(number: u32) -> &'static str
    ensures { result.now ≡ choice_name number }
{
    match number {
        0 => "withdraw",
        1..=3 => "freeze",
        4..=6 => "slide",
        _ => "float",
    }
}

/// Puts the row of an answer.
#[tactic(auto, unfolding(crate::specs::Bundle::answer_row))]
fn push_answer(out: &mut Text, window: u32, id: u32, choice: &str) -> Result<(), OutOfMemory>
    ensures { OnOk result (out.new ≡ out.old ++ answer_row window id choice.now) }
{
    out.extend_from_slice(b"answer")?;
    push_field(out, id)?;
    push_field(out, id)?;
    push_field(out, window)?;
    out.extend_from_slice(b",1,")?;
    out.extend_from_slice(choice.as_bytes())?;
    out.extend_from_slice(b"\n")
}

/// Puts the row of a cut.
#[tactic(auto, unfolding(crate::specs::Bundle::cut_row))]
fn push_cut(out: &mut Text, window: u32) -> Result<(), OutOfMemory>
    ensures { OnOk result (out.new ≡ out.old ++ cut_row window) }
{
    out.extend_from_slice(b"cut,clerk,")?;
    push_number(out, window)?;
    out.extend_from_slice(b"\n")
}
