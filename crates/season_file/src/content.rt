// What the sections of a bundle give.
ghost use Rattle.std.specs.Prelude.{◌≡◌, ◌≤◌, Ok, length, take, IfOk, IfErr, IsErrOf};
ghost use Rattle.office_base.specs.Limits.{most_bundle_bytes};
ghost use Rattle.office_base.specs.Outside.{IsAtEnd, Rose, Took};
ghost use Rattle.request_rows.specs.Requests.{IsScriptFault as AreRowsWithout, script_of};
ghost use Rattle.season_file.specs.Bundle.{parts_of, season_text};
ghost use Rattle.season_file.specs.Season.{AreAligned, BundleGives, IsSeasonFault, IsSectionFault, IsText, IsUnread, SectionsGive, rows_of_requests, script_error};

use crate::fault::SeasonFault;
use crate::head::{Head, read_head};
use crate::splitting::{Pieces, after_line, split_at_titles};
use choice_lists::{ChoiceFault, Choices};
use office_base::limits::MOST_BUNDLE_BYTES;
use office_base::{ReadFault, Source, Text, read_whole};
use rank_lists::{RankFault, Register};
use request_rows::{Script, ScriptFault, read_script};
use seat_matrix::{Matrix, MatrixFault};
use std::alloc::Global;

/// What the first line and the four sections give.
#[derive(Drop)]
pub struct Content {
    pub version: u8,
    pub head: Head,
    pub register: Register,
    pub matrix: Matrix,
    pub choices: Choices,
}

/// Holds what a bundle gives: what its sections give, its requests, and how many bytes come before their section.
#[derive(Drop)]
pub(crate) struct ReadBundle {
    pub(crate) content: Content,
    pub(crate) script: Script,
    pub(crate) end: usize,
}

/// The script's fault as the season's.
pub(crate) fn script_error(fault: ScriptFault) -> SeasonFault
    ensures { result ≡ script_error fault }
{
    match fault {
        ScriptFault::BadRequest { row } => SeasonFault::BadRequest { row },
        ScriptFault::OutOfMemory => SeasonFault::OutOfMemory,
    }
}

/// What the sections give, or the first fault of one.
fn read_sections(alloc: Global, cut: Pieces<'_>) -> Result<Content, SeasonFault>
    ensures value { IfOk result (λ content. SectionsGive (parts_of cut.entry) content) }
    ensures aligned { IfOk result AreAligned }
    ensures fault { IfErr result (λ fault. IsSectionFault (parts_of cut.entry) fault) }
{
    let head = match read_head(alloc, cut.season)? {
        Ok(head) => head,
        Err(row) => return Err(SeasonFault::BadSeason { row }),
    };
    let register = match Register::read(alloc, cut.register) {
        Ok(register) => register,
        Err(RankFault::OutOfMemory) => return Err(SeasonFault::OutOfMemory),
        Err(fault) => return Err(SeasonFault::Register(fault)),
    };
    let matrix = match Matrix::read(alloc, cut.matrix) {
        Ok(matrix) => matrix,
        Err(MatrixFault::OutOfMemory) => return Err(SeasonFault::OutOfMemory),
        Err(fault) => return Err(SeasonFault::Matrix(fault)),
    };
    match Choices::read(alloc, cut.choices, &register, &matrix) {
        Ok(choices) => Ok(Content {
            version: cut.version,
            head,
            register,
            matrix,
            choices,
        }),
        Err(ChoiceFault::OutOfMemory) => Err(SeasonFault::OutOfMemory),
        Err(fault) => Err(SeasonFault::Choices(fault)),
    }
}

/// The requests of a section that begins with its section line, or the first row that is none. Without a section there are none.
fn read_requests(alloc: Global, section: &[u8]) -> Result<Script, ScriptFault>
    ensures value { IfOk result (λ script. script_of (rows_of_requests section.now) ≡ Ok script) }
    ensures fault { IfErr result (λ fault. AreRowsWithout (rows_of_requests section.now) fault) }
{
    if section.is_empty() {
        return Ok(Script::new(alloc));
    }
    read_script(alloc, after_line(section))
}

/// What a bundle of UTF-8 gives, or its first fault.
fn read_bundle(alloc: Global, bytes: &[u8], requests: bool) -> Result<ReadBundle, SeasonFault>
    requires { IsText bytes.now }
    ensures value { IfOk result (λ given.
        BundleGives requests bytes.now given.content given.script) }
    ensures aligned { IfOk result (λ given. AreAligned given.content) }
    ensures end { IfOk result (λ given. take given.end bytes.now ≡ season_text requests bytes.now) }
    ensures fault { IfErr result (λ fault. IsSeasonFault requests bytes.now fault) }
{
    let cut = match split_at_titles(bytes, requests) {
        Ok(cut) => cut,
        Err(fault) => return Err(fault),
    };
    let content = match read_sections(alloc, cut) {
        Ok(content) => content,
        Err(fault) => return Err(fault),
    };
    let clerk = content.register.who(content.head.clerk.bytes());
    if clerk.is_some() {
        return Err(SeasonFault::BadSeason {
            row: content.head.row,
        });
    }
    match read_requests(alloc, cut.requests) {
        Ok(script) => Ok(ReadBundle {
            content,
            script,
            end: bytes.len().saturating_sub(cut.requests.len()),
        }),
        Err(fault) => Err(script_error(fault)),
    }
}

/// What bytes give, or their first fault.
pub(crate) fn read_content(
    alloc: Global,
    bytes: &[u8],
    requests: bool,
) -> Result<ReadBundle, SeasonFault>
    ensures value { IfOk result (λ given.
        BundleGives requests bytes.now given.content given.script) }
    ensures aligned { IfOk result (λ given. AreAligned given.content) }
    ensures end { IfOk result (λ given. take given.end bytes.now ≡ season_text requests bytes.now) }
    ensures fault { IfErr result (λ fault. IsSeasonFault requests bytes.now fault) }
{
    if bytes.len() > MOST_BUNDLE_BYTES {
        return Err(SeasonFault::TooLong);
    }
    match std::str::from_utf8(bytes) {
        Ok(_) => read_bundle(alloc, bytes, requests),
        Err(_) => Err(SeasonFault::NotUtf8),
    }
}

/// The bytes that a source gives up to its end.
pub(crate) fn read_bytes<S: Source>(alloc: Global, source: &mut S) -> Result<Text, SeasonFault>
    ensures taken { IfOk result (λ bytes. Took bytes (S.left source.old) (S.left source.new)) }
    ensures ended { IfOk result (λ bytes. IsAtEnd (S.left source.new)) }
    ensures short { IfOk result (λ bytes. length bytes ≤ most_bundle_bytes) }
    ensures fault { IfErr result (λ fault. IsUnread (S.left source.old) (S.left source.new) fault) }
    ensures cause { IsErrOf result SeasonFault.ReadFault
        → Rose (S.faults source.old) (S.faults source.new) }
    ensures count { S.faults source.old ≤ S.faults source.new }
    ensures steady { ¬ IsErrOf result SeasonFault.ReadFault
        → S.faults source.new ≡ S.faults source.old }
{
    match read_whole(alloc, source, MOST_BUNDLE_BYTES) {
        Ok(bytes) => Ok(bytes),
        Err(ReadFault::Failed) => Err(SeasonFault::ReadFault),
        Err(ReadFault::TooLong) => Err(SeasonFault::TooLong),
        Err(ReadFault::OutOfMemory) => Err(SeasonFault::OutOfMemory),
    }
}
