// The texts of a special round.
ghost use Rattle.std.specs.Prelude.{◌≡◌, ◌++◌, IfOk, OnOk};
ghost use Rattle.std.specs.Fmt.{decimal};
ghost use Rattle.special_command.specs.Texts.{CanBeShown, special_fault_line, special_line, special_text};

use choice_lists::ChoiceFault;
use office_base::{OutOfMemory, Text};
use office_text::push_number;
use published_texts::round_text;
use special_round::{Special, SpecialFault};
use std::alloc::Global;
use step_lines::push_count;

/// Puts the line of the counts: the vacant seats, and how many of them the round gives.
fn push_counts(out: &mut Text, vacant: u32, seated: usize) -> Result<(), OutOfMemory>
    ensures { OnOk result (out.new ≡ out.old ++ special_line vacant seated) }
{
    out.extend_from_slice(b"special seats ")?;
    push_number(out, vacant)?;
    out.extend_from_slice(b" seated ")?;
    push_count(out, seated)?;
    out.extend_from_slice(b"\n")
}

/// The text of a special round: the line of its counts, and the text of its round.
pub fn special_text(alloc: Global, special: &Special) -> Result<Text, OutOfMemory>
    requires { CanBeShown special.now }
    ensures { IfOk result (λ text. text ≡ special_text special.now) }
{
    let season = &special.season;
    let round = round_text(
        alloc,
        &season.matrix,
        season.register.people(),
        &special.round,
    )?;
    let mut out = Text::new(alloc);
    push_counts(&mut out, special.vacant, special.round.seated())?;
    out.extend_from_slice(round.as_slice())?;
    Ok(out)
}

/// A line of three parts: some bytes, a number, and some bytes.
fn numbered_line(
    alloc: Global,
    before: &[u8],
    number: u32,
    after: &[u8],
) -> Result<Text, OutOfMemory>
    ensures { IfOk result (λ text. text ≡ before.now ++ decimal number ++ after.now) }
{
    let mut out = Text::new(alloc);
    out.extend_from_slice(before)?;
    push_number(&mut out, number)?;
    out.extend_from_slice(after)?;
    Ok(out)
}

/// The line that tells why there is no special round.
pub fn special_fault_text(alloc: Global, fault: SpecialFault) -> Result<Text, OutOfMemory>
    ensures { IfOk result (λ text. text ≡ special_fault_line fault) }
{
    match fault {
        SpecialFault::NotFinal { now } => numbered_line(
            alloc,
            b"fault: special NotFinal now ",
            u32::from(now),
            b"\n",
        ),
        SpecialFault::Lists(ChoiceFault::Bad { row, kind }) => {
            let mut out = numbered_line(alloc, b"fault: choices row ", row, b" ")?;
            out.extend_from_slice(kind.name().as_bytes())?;
            out.extend_from_slice(b"\n")?;
            Ok(out)
        }
        SpecialFault::Admitted { row } => {
            numbered_line(alloc, b"fault: special row ", row, b" Admitted\n")
        }
        SpecialFault::Lists(ChoiceFault::OutOfMemory) | SpecialFault::OutOfMemory => {
            let mut out = Text::new(alloc);
            out.extend_from_slice(b"fault: memory\n")?;
            Ok(out)
        }
    }
}
