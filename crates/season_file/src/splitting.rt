// A bundle, cut into its sections.
ghost use Rattle.std.specs.Prelude.{◌≡◌, ◌≤◌, length, MatchResult, Ok, Err, true};
ghost use Rattle.office_base.specs.Limits.{most_bundle_bytes};
ghost use Rattle.office_text.specs.Lines.{lines_of};
ghost use Rattle.season_file.specs.Bundle.{after_line, body_len, breaks, bundle_of, fault_line, last_section, line_len, parts_of, section, sections, sections_after, skip_empty, title, version_of};
ghost use Rattle.season_file.specs.Titles.{begins_title};

use crate::fault::SeasonFault;
use memchr::memchr;
use office_text::{drop_cr, next_text_line, skip_mark, trim_commas};

/// What a bundle is cut into: its version, the bodies of four sections without their section lines, and the section of the
/// requests from its section line on, which is empty where there is none.
#[derive(Clone, Copy)]
pub struct Pieces<'a> {
    /// The version of the rules, which is 1 or 2.
    pub version: u8,
    pub season: &'a [u8],
    pub register: &'a [u8],
    pub matrix: &'a [u8],
    pub choices: &'a [u8],
    pub requests: &'a [u8],
}

/// Returns how many bytes come before the first LF.
pub fn line_len(bytes: &[u8]) -> usize
    ensures value { result ≡ line_len bytes.now }
    ensures within { result ≤ length bytes.now }
{
    match memchr(b'\n', bytes) {
        Some(end) => end,
        None => bytes.len(),
    }
}

/// The first line without its line end and the commas before it.
pub fn title(bytes: &[u8]) -> &[u8]
    ensures { result.now ≡ title bytes.now }
{
    trim_commas(drop_cr(&bytes[..line_len(bytes)]))
}

/// The bytes after the first line.
pub fn after_line(bytes: &[u8]) -> &[u8]
    ensures { result.now ≡ after_line bytes.now }
{
    let end = line_len(bytes);
    if end < bytes.len() {
        &bytes[end + 1..]
    } else {
        &[]
    }
}

/// The bytes from the first line on that is not empty.
pub fn skip_empty(bytes: &[u8]) -> &[u8]
    ensures { result.now ≡ skip_empty bytes.now }
{
    let mut rest = bytes;
    'lines: loop {
        match rest {
            [b'\n', more @ ..] => rest = more,
            [b'\r', b'\n', more @ ..] => rest = more,
            [b'\r'] => return &[],
            _ => return rest,
        }
    }
}

/// Whether a section line begins here, where a line does.
fn begins_title(bytes: &[u8]) -> bool
    ensures { result ≡ begins_title bytes.now }
{
    matches!(bytes, [b'[', ..])
}

/// Returns how many bytes come before the next line that begins with `[`. The first byte begins a line.
fn body_len(bytes: &[u8]) -> usize
    ensures value { result ≡ body_len true bytes.now }
    ensures within { result ≤ length bytes.now }
{
    let mut rest = bytes;
    let mut count = 0;
    'lines: while !begins_title(rest) {
        let end = line_len(rest);
        if end == rest.len() {
            return count + end;
        }
        let (line, more) = rest.split_at(end + 1);
        count += line.len();
        rest = more;
    }
    count
}

/// Returns the body after a section line of this name, and what follows the body. If another line begins the text,
/// returns the text.
pub fn section<'a>(text: &'a [u8], name: &[u8]) -> Result<(&'a [u8], &'a [u8]), &'a [u8]>
    ensures { MatchResult result (λ cut. section name.now text.now ≡ Ok (cut.0.now, cut.1.now))
        (λ rest. section name.now text.now ≡ Err rest.now) }
{
    if title(text) != name {
        return Err(text);
    }
    let body = after_line(text);
    Ok(body.split_at(body_len(body)))
}

/// Returns what follows the choices: nothing or, if requests are read, their section alone. Otherwise returns what
/// there is from the first wrong line on.
fn last_section(text: &[u8], requests: bool) -> Result<&[u8], &[u8]>
    ensures { MatchResult result (λ last. last_section requests text.now ≡ Ok last.now)
        (λ rest. last_section requests text.now ≡ Err rest.now) }
{
    if text.is_empty() {
        return Ok(text);
    }
    if !requests {
        return Err(text);
    }
    let (_, rest) = section(text, b"[requests]".as_slice())?;
    if rest.is_empty() { Ok(text) } else { Err(rest) }
}

/// Returns the sections in their order, or what there is from the first wrong line on: nothing, if a section is
/// missing at the end.
fn split_sections(text: &[u8], version: u8, requests: bool) -> Result<Pieces<'_>, &[u8]>
    ensures { MatchResult result (λ cut. sections requests version text.now ≡ Ok (parts_of cut))
        (λ rest. sections requests version text.now ≡ Err rest.now) }
{
    let (season, rest) = section(text, b"[season]".as_slice())?;
    let (register, rest) = section(rest, b"[register]".as_slice())?;
    let (matrix, rest) = section(rest, b"[matrix]".as_slice())?;
    let (choices, rest) = section(rest, b"[choices]".as_slice())?;
    let requests = last_section(rest, requests)?;
    Ok(Pieces {
        version,
        season,
        register,
        matrix,
        choices,
        requests,
    })
}

/// How many lines there are.
fn line_count(text: &[u8]) -> u32
    requires { length text.now ≤ most_bundle_bytes }
    ensures value { result ≡ length (lines_of text.now) }
    ensures within { result ≤ length text.now }
{
    let mut rest = text;
    let mut count = 0;
    'lines: while let Some((_, more)) = next_text_line(rest) {
        count += 1;
        rest = more;
    }
    count
}

/// How many LFs there are.
fn breaks(text: &[u8]) -> u32
    requires { length text.now ≤ most_bundle_bytes }
    ensures value { result ≡ breaks text.now }
    ensures within { result ≤ length text.now }
{
    let mut rest = text;
    let mut count = 0;
    'lines: loop {
        let end = line_len(rest);
        if end == rest.len() {
            return count;
        }
        count += 1;
        (_, rest) = rest.split_at(end + 1);
    }
}

/// The line at which the rest of a text begins, or one more than the number of lines where nothing is left.
pub fn fault_line(text: &[u8], rest: &[u8]) -> u32
    requires { length text.now ≤ most_bundle_bytes }
    ensures { result ≡ fault_line text.now rest.now }
{
    if rest.is_empty() {
        line_count(text) + 1
    } else {
        breaks(&text[..text.len().saturating_sub(rest.len())]) + 1
    }
}

/// The version that the first line of a text gives.
fn read_version(text: &[u8]) -> Option<u8>
    ensures { result ≡ version_of (title text.now) }
{
    let line = title(text);
    if line == b"office bundle 1".as_slice() {
        Some(1)
    } else if line == b"office bundle 2".as_slice() {
        Some(2)
    } else {
        None
    }
}

/// The sections after the first line, or the line that is wrong.
fn split_after_first_line(
    text: &[u8],
    version: u8,
    requests: bool,
) -> Result<Pieces<'_>, SeasonFault>
    requires { length text.now ≤ most_bundle_bytes }
    ensures { MatchResult result
        (λ cut. sections_after requests version text.now ≡ Ok (parts_of cut))
        (λ fault. sections_after requests version text.now ≡ Err fault) }
{
    match split_sections(skip_empty(after_line(text)), version, requests) {
        Ok(cut) => Ok(cut),
        Err(rest) => Err(SeasonFault::Section {
            line: fault_line(text, rest),
        }),
    }
}

/// What a bundle is cut into, or the fault of its first line or of its sections. A section of requests is a fault of the
/// sections where requests are not read.
pub(crate) fn split_at_titles(bytes: &[u8], requests: bool) -> Result<Pieces<'_>, SeasonFault>
    requires { length bytes.now ≤ most_bundle_bytes }
    ensures { MatchResult result (λ cut. bundle_of requests bytes.now ≡ Ok (parts_of cut))
        (λ fault. bundle_of requests bytes.now ≡ Err fault) }
{
    let text = skip_mark(bytes);
    match read_version(text) {
        Some(version) => split_after_first_line(text, version, requests),
        None => Err(SeasonFault::BadFirstLine),
    }
}

/// What a bundle is cut into with its requests, or the fault of its first line or of its sections.
pub fn split_with_requests(bytes: &[u8]) -> Result<Pieces<'_>, SeasonFault>
    requires { length bytes.now ≤ most_bundle_bytes }
    ensures { MatchResult result (λ cut. bundle_of true bytes.now ≡ Ok (parts_of cut))
        (λ fault. bundle_of true bytes.now ≡ Err fault) }
{
    split_at_titles(bytes, true)
}
