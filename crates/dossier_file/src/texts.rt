// The published texts of a dossier, one after another.
ghost use Rattle.std.specs.Prelude.{◌≡◌, ◌<◌, ◌≤◌, ◌+◌, ◌-◌, ◌^◌, ◌++◌, IfOk, IfErr, length};
ghost use Rattle.std.specs.List.{AllByRecursion};
ghost use Rattle.published_texts.specs.Texts.{list_head};
ghost use Rattle.text_readers.specs.Reading.{IsTextFault};
ghost use Rattle.publish.specs.Rows.{IsFinalText};
ghost use Rattle.dossier_file.specs.Due.{IsDueOf};
ghost use Rattle.dossier_file.specs.Papers.{ArePapers, IsListOf, IsRoundOf};
ghost use Rattle.dossier_file.specs.Texts.{AreReadable, HasRoom, IsDueFault, IsPut, IsReadFrom, IsTextsFault, after_lines, round_start};

use crate::bytes::{headless_line, line_count, split_after_line};
use crate::due::Due;
use crate::papers::{ListReads, Papers, RoundReads};
use office_base::{OutOfMemory, ProgId, Text};
use office_text::push_number;
use publish::{FinalRead, ListRead, RoundRead, TextFault, read_final, read_list, read_round};
use season_file::Season;
use seat_matrix::Matrix;
use std::alloc::Global;

/// The first words of the round of this number.
fn round_start(alloc: Global, number: u16) -> Result<Text, OutOfMemory>
    ensures { IfOk result (λ text. text ≡ round_start number) }
{
    let mut text = Text::new(alloc);
    text.extend_from_slice(b"round ")?;
    push_number(&mut text, u32::from(number))?;
    text.extend_from_slice(b" seated ")?;
    Ok(text)
}

/// The first line of a programme's list in the round of this number.
fn list_start(
    alloc: Global,
    matrix: &Matrix,
    number: u16,
    prog: ProgId,
) -> Result<Text, OutOfMemory>
    requires { prog.0 < length matrix.now.programmes }
    ensures { IfOk result (λ text. text ≡ list_head matrix.now number prog.0) }
{
    let code = matrix.code(prog);
    let mut text = Text::new(alloc);
    text.extend_from_slice(b"list ")?;
    push_number(&mut text, u32::from(number))?;
    text.extend_from_slice(b" ")?;
    text.extend_from_slice(code.bytes())?;
    text.extend_from_slice(b"\n")?;
    Ok(text)
}

/// The round of this number that bytes begin with, and what follows it, or the line of its fault.
fn take_round<'a>(
    alloc: Global,
    season: &Season,
    number: u16,
    bytes: &'a [u8],
) -> Result<(RoundRead, &'a [u8]), TextFault>
    requires { AreReadable season.now.matrix season.now.register.people }
    ensures value { IfOk result (λ read. IsReadFrom (IsRoundOf season.now.matrix
        season.now.register.people number) bytes.now read.0 read.1.now) }
    ensures fault { IfErr result (λ fault. IsTextsFault (IsRoundOf season.now.matrix
        season.now.register.people number) bytes.now fault) }
{
    let head = round_start(alloc, number)?;
    if let Some(line) = headless_line(bytes, head.as_slice()) {
        return Err(TextFault::Line(line));
    }
    let (piece, rest) = split_after_line(bytes, b"end round");
    match read_round(alloc, season, piece) {
        Ok(read) => Ok((read, rest)),
        Err(fault) => Err(fault),
    }
}

/// The list of this programme in the round of this number that bytes begin with, and what follows it, or the line of its fault.
fn take_list<'a>(
    alloc: Global,
    season: &Season,
    number: u16,
    prog: ProgId,
    bytes: &'a [u8],
) -> Result<(ListRead, &'a [u8]), TextFault>
    requires readable { AreReadable season.now.matrix season.now.register.people }
    requires programme { prog.0 < length season.now.matrix.programmes }
    ensures value { IfOk result (λ read. IsReadFrom (IsListOf season.now.matrix
        season.now.register.people number prog.0) bytes.now read.0 read.1.now) }
    ensures fault { IfErr result (λ fault. IsTextsFault (IsListOf season.now.matrix
        season.now.register.people number prog.0) bytes.now fault) }
{
    let head = list_start(alloc, &season.matrix, number, prog)?;
    if let Some(line) = headless_line(bytes, head.as_slice()) {
        return Err(TextFault::Line(line));
    }
    let (piece, rest) = split_after_line(bytes, b"end list");
    match read_list(alloc, season, piece) {
        Ok(read) => Ok((read, rest)),
        Err(fault) => Err(fault),
    }
}

/// The final admissions that bytes begin with, and what follows them, or the line of their fault.
fn take_final<'a>(
    alloc: Global,
    season: &Season,
    bytes: &'a [u8],
) -> Result<(FinalRead, &'a [u8]), TextFault>
    requires { AreReadable season.now.matrix season.now.register.people }
    ensures value { IfOk result (λ read. IsReadFrom (IsFinalText season.now.matrix
        season.now.register.people (season.now.rounds + 1)) bytes.now read.0 read.1.now) }
    ensures fault { IfErr result (λ fault. IsTextsFault (IsFinalText season.now.matrix
        season.now.register.people (season.now.rounds + 1)) bytes.now fault) }
{
    let (piece, rest) = split_after_line(bytes, b"end final");
    match read_final(alloc, season, piece) {
        Ok(read) => Ok((read, rest)),
        Err(fault) => Err(fault),
    }
}

/// Reads the text that is due, puts it after the others, and gives what follows it, or the line of its fault.
fn take_due<'a>(
    alloc: Global,
    season: &Season,
    due: Due,
    bytes: &'a [u8],
    papers: &mut Papers,
) -> Result<&'a [u8], TextFault>
    requires readable { AreReadable season.now.matrix season.now.register.people }
    requires due { IsDueOf season.now.matrix due }
    ensures value { IfOk result (λ rest. IsPut season.now.matrix season.now.register.people
        (season.now.rounds + 1) due bytes.now rest.now papers.old papers.new) }
    ensures fault { IfErr result (λ fault. IsDueFault season.now.matrix
        season.now.register.people (season.now.rounds + 1) due bytes.now fault) }
{
    match due {
        Due::Round { number } => match take_round(alloc, season, number, bytes) {
            Ok((read, rest)) => {
                papers.rounds.push(read)?;
                Ok(rest)
            }
            Err(fault) => Err(fault),
        },
        Due::List { number, prog } => match take_list(alloc, season, number, prog, bytes) {
            Ok((read, rest)) => {
                papers.lists.push(read)?;
                Ok(rest)
            }
            Err(fault) => Err(fault),
        },
        Due::Final => match take_final(alloc, season, bytes) {
            Ok((read, rest)) => {
                // no more than one is due
                if papers.last.is_none() {
                    papers.last = Some(read);
                }
                Ok(rest)
            }
            Err(fault) => Err(fault),
        },
    }
}

/// The fault with so many lines before its line.
fn after_lines(fault: TextFault, before: u32) -> TextFault
    requires { HasRoom before fault }
    ensures { result ≡ after_lines before fault }
{
    match fault {
        TextFault::Line(line) => TextFault::Line(before + line),
        TextFault::OutOfMemory => TextFault::OutOfMemory,
    }
}

/// The texts that are due, one after another, or the line of the fault of the bytes as these.
pub(crate) fn take_all(
    alloc: Global,
    season: &Season,
    dues: &[Due],
    bytes: &[u8],
) -> Result<Papers, TextFault>
    requires readable { AreReadable season.now.matrix season.now.register.people }
    requires dues { AllByRecursion (IsDueOf season.now.matrix) dues.now }
    requires short { length bytes.now < 2 ^ 32 - 2 }
    ensures value { IfOk result (λ papers. ArePapers season.now.matrix
        season.now.register.people season.now.rounds dues.now bytes.now papers) }
    ensures fault { IfErr result (λ fault. IsTextFault (ArePapers season.now.matrix
        season.now.register.people season.now.rounds dues.now) bytes.now fault) }
{
    let mut papers = Papers {
        rounds: RoundReads::new(alloc),
        lists: ListReads::new(alloc),
        last: None,
    };
    let mut rest = bytes;
    let mut before: u32 = 0;
    for due in dues {
        match take_due(alloc, season, *due, rest, &mut papers) {
            Ok(later) => {
                before += line_count(&rest[..rest.len() - later.len()]);
                rest = later;
            }
            Err(fault) => return Err(after_lines(fault, before)),
        }
    }
    if rest.is_empty() {
        Ok(papers)
    } else {
        Err(TextFault::Line(before + 1))
    }
}
