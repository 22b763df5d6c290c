// How much a season has.
ghost use Rattle.std.specs.Prelude.{◌≡◌, IfOk};
ghost use Rattle.season_texts.specs.Texts.{counts_line, line_of_counts};

use office_base::{OutOfMemory, Text};
use office_text::push_number;
use season_file::Season;
use std::alloc::Global;

/// The line with the numbers of candidates, of programmes, of the programmes on all choice lists together, and of rounds.
pub fn counts_text(alloc: Global, season: &Season) -> Result<Text, OutOfMemory>
    ensures { IfOk result (λ text. text ≡ counts_line season.now) }
{
    let people = season.register.people();
    let mut choices = 0;
    for person in people {
        choices += season.choices.list(person.id).len() as u32;
    }
    line_of_counts(
        alloc,
        people.len() as u32,
        u32::from(season.matrix.count()),
        choices,
        u32::from(season.rounds),
    )
}

/// The line of these counts.
fn line_of_counts(
    alloc: Global,
    candidates: u32,
    programmes: u32,
    choices: u32,
    rounds: u32,
) -> Result<Text, OutOfMemory>
    ensures { IfOk result (λ text. text ≡ line_of_counts candidates programmes choices rounds) }
{
    let mut out = Text::new(alloc);
    out.extend_from_slice(b"bundle candidates ")?;
    push_number(&mut out, candidates)?;
    out.extend_from_slice(b" programmes ")?;
    push_number(&mut out, programmes)?;
    out.extend_from_slice(b" choices ")?;
    push_number(&mut out, choices)?;
    out.extend_from_slice(b" rounds ")?;
    push_number(&mut out, rounds)?;
    out.extend_from_slice(b"\n")?;
    Ok(out)
}
