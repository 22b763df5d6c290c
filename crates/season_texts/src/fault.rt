// The line that reports what is wrong with a bundle.
ghost use Rattle.std.specs.Prelude.{◌≡◌, IfOk};
ghost use Rattle.season_texts.specs.Texts.{fault_line, row_line, section_line};

use choice_lists::ChoiceFault;
use office_base::{OutOfMemory, Text};
use office_text::push_number;
use rank_lists::RankFault;
use season_file::SeasonFault;
use seat_matrix::MatrixFault;
use std::alloc::Global;

/// Returns the line that reports the fault of a bundle. A source that failed and memory that ran out have their lines
/// too.
pub fn fault_text(alloc: Global, fault: SeasonFault) -> Result<Text, OutOfMemory>
    ensures { IfOk result (λ text. text ≡ fault_line fault) }
{
    match fault {
        SeasonFault::ReadFault => whole_line(alloc, b"fault: read\n"),
        SeasonFault::TooLong => whole_line(alloc, b"fault: bundle TooLong\n"),
        SeasonFault::NotUtf8 => whole_line(alloc, b"fault: bundle NotUtf8\n"),
        SeasonFault::BadFirstLine => whole_line(alloc, b"fault: bundle BadFirstLine\n"),
        SeasonFault::Section { line } => section_line(alloc, line),
        SeasonFault::BadSeason { row } => row_line(alloc, "season", row, "BadSeason"),
        SeasonFault::BadRequest { row } => row_line(alloc, "requests", row, "BadRequest"),
        SeasonFault::Register(RankFault::Bad { row, kind }) => {
            row_line(alloc, "register", row, kind.name())
        }
        SeasonFault::Matrix(MatrixFault::Bad { row, kind }) => {
            row_line(alloc, "matrix", row, kind.name())
        }
        SeasonFault::Choices(ChoiceFault::Bad { row, kind }) => {
            row_line(alloc, "choices", row, kind.name())
        }
        SeasonFault::Register(RankFault::OutOfMemory)
        | SeasonFault::Matrix(MatrixFault::OutOfMemory)
        | SeasonFault::Choices(ChoiceFault::OutOfMemory)
        | SeasonFault::OutOfMemory => whole_line(alloc, b"fault: memory\n"),
    }
}

/// Returns a line, unchanged.
fn whole_line(alloc: Global, line: &[u8]) -> Result<Text, OutOfMemory>
    ensures { IfOk result (λ text. text ≡ line.now) }
{
    let mut out = Text::new(alloc);
    out.extend_from_slice(line)?;
    Ok(out)
}

/// The line of a fault at a line of the bundle, counted from 1.
fn section_line(alloc: Global, line: u32) -> Result<Text, OutOfMemory>
    ensures { IfOk result (λ text. text ≡ section_line line) }
{
    let mut out = Text::new(alloc);
    out.extend_from_slice(b"fault: bundle line ")?;
    push_number(&mut out, line)?;
    out.extend_from_slice(b" Section\n")?;
    Ok(out)
}

/// The line of a fault at a row of a section, counted from 1.
fn row_line(alloc: Global, section: &str, row: u32, kind: &str) -> Result<Text, OutOfMemory>
    ensures { IfOk result (λ text. text ≡ row_line section.now row kind.now) }
{
    let mut out = Text::new(alloc);
    out.extend_from_slice(b"fault: ")?;
    out.extend_from_slice(section.as_bytes())?;
    out.extend_from_slice(b" row ")?;
    push_number(&mut out, row)?;
    out.extend_from_slice(b" ")?;
    out.extend_from_slice(kind.as_bytes())?;
    out.extend_from_slice(b"\n")?;
    Ok(out)
}
