// What is written of a special round: its text, and behind it the list and the cutoffs of each programme.
ghost use Rattle.std.specs.Prelude.{◌≡◌, ◌<◌, ◌++◌, ℕ, List, IfOk, OnOk, length};
ghost use Rattle.special_command.specs.Texts.{CanBeListed, CanBeShown, IsProgrammeText, IsTextOf};

use crate::texts::special_text;
use list_cutoffs::cutoffs_in;
use office_base::{OutOfMemory, ProgId, Text};
use published_texts::list_text;
use reply_texts::cutoffs_text;
use special_round::Special;
use std::alloc::Global;

/// What is written of a special round.
#[derive(Clone, Copy, PartialEq, Eq)]
pub enum SpecialPapers {
    /// The counts and the text of the round.
    RoundAlone,
    /// The same, and then the list and the cutoffs of each programme, in the forms of the office's replies.
    WithLists,
}

/// Returns what is written of a special round.
pub fn papers_text(
    alloc: Global,
    special: &Special,
    papers: SpecialPapers,
) -> Result<Text, OutOfMemory>
    requires shown { CanBeShown special.now }
    requires listed { CanBeListed special.now }
    ensures { IfOk result (IsTextOf papers special.now) }
{
    let text = special_text(alloc, special)?;
    match papers {
        SpecialPapers::RoundAlone => Ok(text),
        SpecialPapers::WithLists => with_lists(alloc, special, text),
    }
}

/// Puts the list and the cutoffs of each programme behind the text of a special round.
fn with_lists(alloc: Global, special: &Special, text: Text) -> Result<Text, OutOfMemory>
    requires listed { CanBeListed special.now }
    requires text { IsTextOf SpecialPapers.RoundAlone special.now text }
    ensures { IfOk result (IsTextOf SpecialPapers.WithLists special.now) }
{
    let mut out = text;
    for prog in 0..special.season.matrix.count() {
        push_programme(alloc, &mut out, special, ProgId(prog))?;
    }
    Ok(out)
}

/// Puts the list of a programme of a special round, and its cutoffs.
fn push_programme(
    alloc: Global,
    out: &mut Text,
    special: &Special,
    prog: ProgId,
) -> Result<(), OutOfMemory>
    requires listed { CanBeListed special.now }
    requires programme { prog.0 < length special.now.season.matrix.programmes }
    ensures { OnOk result ((text : List ℕ) × IsProgrammeText special.now.season.matrix
        special.now.round prog.0 text × (out.new ≡ out.old ++ text)) }
{
    let matrix = &special.season.matrix;
    let number = special.round.number;
    let programme = &special.round.programmes.as_slice()[usize::from(prog.0)];
    let seats = matrix.programme(prog);
    let lines = cutoffs_in(alloc, &seats, programme)?;
    let list = list_text(alloc, matrix, number, prog, programme)?;
    let cutoffs = cutoffs_text(alloc, matrix, number, prog, lines.as_slice())?;
    out.extend_from_slice(list.as_slice())?;
    out.extend_from_slice(cutoffs.as_slice())
}
