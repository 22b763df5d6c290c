// The lines of refusals.
ghost use Rattle.std.specs.Prelude.{◌≡◌, ◌++◌, ℕ, List, codes, OnOk};
ghost use Rattle.std.specs.Fmt.{decimal};
ghost use Rattle.reply_texts.specs.Replies.{detail, refusal_line};

use crate::words::{choice_name, standing_name};
use office_base::{OutOfMemory, Text};
use office_moves::Refusal;
use office_text::push_number;

/// Puts the line of a refusal: its number, its name and what it carries.
pub(crate) fn push_refusal(out: &mut Text, refusal: Refusal) -> Result<(), OutOfMemory>
    ensures { OnOk result (out.new ≡ out.old ++ refusal_line refusal) }
{
    out.extend_from_slice(b"refused ")?;
    push_number(out, u32::from(refusal.number()))?;
    out.extend_from_slice(b" ")?;
    out.extend_from_slice(refusal.name().as_bytes())?;
    push_detail(out, refusal)?;
    out.extend_from_slice(b"\n")
}

/// Puts what a refusal carries.
fn push_detail(out: &mut Text, refusal: Refusal) -> Result<(), OutOfMemory>
    ensures { OnOk result (out.new ≡ out.old ++ detail refusal) }
{
    match refusal {
        Refusal::Denied { rule } => push_numbered(out, b" rule ", u32::from(rule)),
        Refusal::TurnUsed { kept } => push_named(out, b" kept ", choice_name(kept)),
        Refusal::Late { now } => push_numbered(out, b" now ", u32::from(now)),
        Refusal::Ahead { now } => push_numbered(out, b" now ", u32::from(now)),
        Refusal::Gap { last } => push_numbered(out, b" last ", u32::from(last)),
        Refusal::Gone { how } => push_named(out, b" ", standing_name(how)),
        Refusal::Widening { standing } => push_named(out, b" standing ", choice_name(standing)),
        Refusal::NoSuchRound { published } => {
            push_numbered(out, b" published ", u32::from(published))
        }
        Refusal::Falling { seats } => push_numbered(out, b" seats ", u32::from(seats)),
        Refusal::SeatLimit { total } => push_numbered(out, b" total ", total),
        Refusal::UnknownCandidate
        | Refusal::UnknownProgramme
        | Refusal::NoSeat
        | Refusal::TooManyTurns
        | Refusal::NotChosen
        | Refusal::LastWindow
        | Refusal::StepFixed => Ok(()),
    }
}

/// Puts some words and a number.
pub(crate) fn push_numbered(out: &mut Text, words: &[u8], number: u32) -> Result<(), OutOfMemory>
    ensures { OnOk result (out.new ≡ (out.old ++ words.now) ++ decimal number) }
{
    out.extend_from_slice(words)?;
    push_number(out, number)
}

/// Puts some words and a name.
pub(crate) fn push_named(out: &mut Text, words: &[u8], name: &str) -> Result<(), OutOfMemory>
    ensures { OnOk result (out.new ≡ (out.old ++ words.now) ++ name.now) }
{
    out.extend_from_slice(words)?;
    out.extend_from_slice(name.as_bytes())
}
