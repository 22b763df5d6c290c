// The lines of an audit.
ghost use Rattle.std.specs.Prelude.{◌≡◌, ◌++◌, IfOk, OnOk, codes};
ghost use Rattle.std.specs.Fmt.{decimal};
ghost use Rattle.audit_command.specs.Best.{second_line};
ghost use Rattle.audit_command.specs.Texts.{broken_end, broken_line, broken_special_line, candidate_or_dash, code_or_dash, dossier_line, found_line, sound_special_line, special_line, special_verdict_line, verdict_line};

use crate::second::Second;
use audit_rules::Verdict;
use dossier_file::DossierFault;
use list_audit::Clause;
use office_base::{CandId, OutOfMemory, ProgId, Text};
use office_text::push_number;
use season_texts::fault_text as season_fault_text;
use seat_matrix::Matrix;
use special_audit::{FoundFault, SpecialError};
use special_command::special_fault_text;
use std::alloc::Global;

/// Returns the line of a verdict on a season of this matrix.
pub(crate) fn verdict_text(
    alloc: Global,
    matrix: &Matrix,
    verdict: Verdict,
) -> Result<Text, OutOfMemory>
    ensures { IfOk result (λ text. text ≡ verdict_line matrix.now verdict) }
{
    match verdict {
        Verdict::Sound { rounds } => {
            numbered_line(alloc, b"audit sound rounds ", u32::from(rounds))
        }
        Verdict::Broken {
            round,
            clause,
            prog,
            cand,
        } => broken_text(alloc, matrix, round, clause, prog, cand),
    }
}

/// Returns the line of a verdict on a special round over this matrix, behind so many sound rounds.
pub(crate) fn special_verdict_text(
    alloc: Global,
    matrix: &Matrix,
    rounds: u16,
    verdict: Verdict,
) -> Result<Text, OutOfMemory>
    ensures { IfOk result (λ text. text ≡ special_verdict_line matrix.now rounds verdict) }
{
    match verdict {
        Verdict::Sound { .. } => sound_special_text(alloc, rounds),
        Verdict::Broken {
            clause,
            prog,
            cand,
            ..
        } => broken_special_text(alloc, matrix, clause, prog, cand),
    }
}

/// Returns the line of a sound special round, behind so many sound rounds.
fn sound_special_text(alloc: Global, rounds: u16) -> Result<Text, OutOfMemory>
    ensures { IfOk result (λ text. text ≡ sound_special_line rounds) }
{
    let mut out = Text::new(alloc);
    out.extend_from_slice(b"audit sound rounds ")?;
    push_number(&mut out, u32::from(rounds))?;
    out.extend_from_slice(b" special\n")?;
    Ok(out)
}

/// Returns the line of a clause that is broken in the special round.
fn broken_special_text(
    alloc: Global,
    matrix: &Matrix,
    clause: Clause,
    prog: Option<ProgId>,
    cand: Option<CandId>,
) -> Result<Text, OutOfMemory>
    ensures { IfOk result (λ text. text ≡ broken_special_line matrix.now clause prog cand) }
{
    let mut out = Text::new(alloc);
    out.extend_from_slice(b"audit broken special ")?;
    push_broken(&mut out, matrix, clause, prog, cand)?;
    Ok(out)
}

/// Puts the line of a second verdict after a text.
pub(crate) fn push_second(alloc: Global, out: &mut Text, second: Second) -> Result<(), OutOfMemory>
    ensures { OnOk result (out.new ≡ out.old ++ second_line second) }
{
    match second {
        Second::AllBest => out.extend_from_slice(b"best\n"),
        Second::NotBestRound { round, cand } => push_not_best(out, round, cand),
        Second::NotBestSpecial { cand } => {
            let line = numbered_line(alloc, b"not best special ", cand.0)?;
            out.extend_from_slice(line.as_slice())
        }
    }
}

/// Puts the line that names a round that is not the best one, and the first candidate to whom the best one gives more.
fn push_not_best(out: &mut Text, round: u16, cand: CandId) -> Result<(), OutOfMemory>
    ensures { OnOk result (out.new ≡ out.old ++ second_line (Second.NotBestRound round cand)) }
{
    out.extend_from_slice(b"not best round ")?;
    push_number(out, u32::from(round))?;
    out.extend_from_slice(b" ")?;
    push_number(out, cand.0)?;
    out.extend_from_slice(b"\n")
}

/// The line of a clause that is broken in a round, with the programme and the candidate whom it names.
fn broken_text(
    alloc: Global,
    matrix: &Matrix,
    round: u16,
    clause: Clause,
    prog: Option<ProgId>,
    cand: Option<CandId>,
) -> Result<Text, OutOfMemory>
    ensures { IfOk result (λ text. text ≡ broken_line matrix.now round clause prog cand) }
{
    let mut out = Text::new(alloc);
    out.extend_from_slice(b"audit broken round ")?;
    push_number(&mut out, u32::from(round))?;
    out.extend_from_slice(b" ")?;
    push_broken(&mut out, matrix, clause, prog, cand)?;
    Ok(out)
}

/// Puts the end of the line of a broken clause: its name, and the programme and the candidate whom it names.
fn push_broken(
    out: &mut Text,
    matrix: &Matrix,
    clause: Clause,
    prog: Option<ProgId>,
    cand: Option<CandId>,
) -> Result<(), OutOfMemory>
    ensures { OnOk result (out.new ≡ out.old ++ broken_end matrix.now clause prog cand) }
{
    out.extend_from_slice(clause.name().as_bytes())?;
    out.extend_from_slice(b" ")?;
    push_code(out, matrix, prog)?;
    out.extend_from_slice(b" ")?;
    push_candidate(out, cand)?;
    out.extend_from_slice(b"\n")
}

/// Puts the code of a programme that is named, or a dash. A number that the matrix does not have has no code.
fn push_code(out: &mut Text, matrix: &Matrix, prog: Option<ProgId>) -> Result<(), OutOfMemory>
    ensures { OnOk result (out.new ≡ out.old ++ code_or_dash matrix.now prog) }
{
    let Some(prog) = prog else {
        return out.extend_from_slice(b"-");
    };
    if prog.0 < matrix.count() {
        let code = matrix.code(prog);
        out.extend_from_slice(code.bytes())
    } else {
        Ok(())
    }
}

/// Puts the number of a candidate who is named, or a dash.
fn push_candidate(out: &mut Text, cand: Option<CandId>) -> Result<(), OutOfMemory>
    ensures { OnOk result (out.new ≡ out.old ++ candidate_or_dash cand) }
{
    match cand {
        Some(cand) => push_number(out, cand.0),
        None => out.extend_from_slice(b"-"),
    }
}

/// Returns a line of some bytes and a number.
fn numbered_line(alloc: Global, before: &[u8], number: u32) -> Result<Text, OutOfMemory>
    ensures { IfOk result (λ text. text ≡ before.now ++ decimal number ++ codes "\n") }
{
    let mut out = Text::new(alloc);
    out.extend_from_slice(before)?;
    push_number(&mut out, number)?;
    out.extend_from_slice(b"\n")?;
    Ok(out)
}

/// Returns a line with these bytes.
fn whole_line(alloc: Global, line: &[u8]) -> Result<Text, OutOfMemory>
    ensures { IfOk result (λ text. text ≡ line.now) }
{
    let mut out = Text::new(alloc);
    out.extend_from_slice(line)?;
    Ok(out)
}

/// Returns the line that reports why a dossier was not read.
/// A source that failed and memory that ran out have their lines too.
fn dossier_text(alloc: Global, fault: DossierFault) -> Result<Text, OutOfMemory>
    ensures { IfOk result (λ text. text ≡ dossier_line fault) }
{
    match fault {
        DossierFault::ReadFault => whole_line(alloc, b"fault: read\n"),
        DossierFault::TooLong => whole_line(alloc, b"fault: dossier TooLong\n"),
        DossierFault::NoSection => whole_line(alloc, b"fault: dossier NoSection\n"),
        DossierFault::Season(fault) => season_fault_text(alloc, fault),
        DossierFault::Published { line } => numbered_line(alloc, b"fault: published line ", line),
        DossierFault::OutOfMemory => whole_line(alloc, b"fault: memory\n"),
    }
}

/// Returns the line that reports why the papers of a special round were not read.
fn special_text(alloc: Global, fault: SpecialError) -> Result<Text, OutOfMemory>
    ensures { IfOk result (λ text. text ≡ special_line fault) }
{
    match fault {
        SpecialError::Lists(fault) => special_fault_text(alloc, fault),
        SpecialError::Line { line } => numbered_line(alloc, b"fault: special line ", line),
        SpecialError::OutOfMemory => whole_line(alloc, b"fault: memory\n"),
    }
}

/// Returns the line that reports why an audit found nothing.
pub(crate) fn fault_text(alloc: Global, fault: FoundFault) -> Result<Text, OutOfMemory>
    ensures { IfOk result (λ text. text ≡ found_line fault) }
{
    match fault {
        FoundFault::Dossier(fault) => dossier_text(alloc, fault),
        FoundFault::Special(fault) => special_text(alloc, fault),
    }
}
