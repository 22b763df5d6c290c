// The summary of a generated season that was run.
ghost use Rattle.std.specs.Prelude.{◌≡◌, ◌++◌, IfOk, OnOk};
ghost use Rattle.season_generator.specs.Summary.{admitted_line, answers_line, generated_line, round_lines, summary_text};

use office_base::{Listed, OutOfMemory, Text};
use office_text::push_number;
use std::alloc::Global;
use step_lines::push_count;

/// What a generated season came to.
#[derive(Drop)]
pub struct Summary {
    /// How many candidates were generated.
    pub candidates: u32,
    /// The seed that they were generated from.
    pub seed: u32,
    /// How many have a seat in each round, from round 1 on.
    pub seated: Listed<usize>,
    /// How many answers were noted.
    pub noted: usize,
    /// How many were refused.
    pub refused: usize,
    /// How many final admissions there are.
    pub admitted: usize,
}

/// The text of a summary.
pub fn summary_text(alloc: Global, summary: &Summary) -> Result<Text, OutOfMemory>
    ensures { IfOk result (λ text. text ≡ summary_text summary.now) }
{
    let mut out = Text::new(alloc);
    push_generated(&mut out, summary.candidates, summary.seed)?;
    push_rounds(&mut out, summary.seated.as_slice())?;
    push_answers(&mut out, summary.noted, summary.refused)?;
    push_admitted(&mut out, summary.admitted)?;
    Ok(out)
}

/// Puts the first line.
fn push_generated(out: &mut Text, candidates: u32, seed: u32) -> Result<(), OutOfMemory>
    ensures { OnOk result (out.new ≡ out.old ++ generated_line candidates seed) }
{
    out.extend_from_slice(b"generated ")?;
    push_number(out, candidates)?;
    out.extend_from_slice(b" seed ")?;
    push_number(out, seed)?;
    out.extend_from_slice(b"\n")
}

/// Puts the lines of all rounds.
fn push_rounds(out: &mut Text, rounds: &[usize]) -> Result<(), OutOfMemory>
    ensures { OnOk result (out.new ≡ out.old ++ round_lines 1 rounds.now) }
{
    for (before, seated) in rounds.iter().enumerate() {
        out.extend_from_slice(b"round ")?;
        push_count(out, before + 1)?;
        out.extend_from_slice(b" seated ")?;
        push_count(out, *seated)?;
        out.extend_from_slice(b"\n")?;
    }
    Ok(())
}

/// Puts the line of the answers.
fn push_answers(out: &mut Text, noted: usize, refused: usize) -> Result<(), OutOfMemory>
    ensures { OnOk result (out.new ≡ out.old ++ answers_line noted refused) }
{
    out.extend_from_slice(b"noted ")?;
    push_count(out, noted)?;
    out.extend_from_slice(b" refused ")?;
    push_count(out, refused)?;
    out.extend_from_slice(b"\n")
}

/// Puts the line of the final admissions.
fn push_admitted(out: &mut Text, admitted: usize) -> Result<(), OutOfMemory>
    ensures { OnOk result (out.new ≡ out.old ++ admitted_line admitted) }
{
    out.extend_from_slice(b"final admitted ")?;
    push_count(out, admitted)?;
    out.extend_from_slice(b"\n")
}
