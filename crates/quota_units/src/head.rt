// The part of an input before the bundle.
ghost use Rattle.std.specs.Prelude.{◌≡◌, ◌≤◌, ◌++◌, ℕ, List, length, MatchResult, Ok, Err, true, bytes_eq, take, codes};
ghost use Rattle.office_base.specs.Limits.{most_bundle_bytes};
ghost use Rattle.season_file.specs.Bundle.{fault_line, title};
ghost use Rattle.quota_units.specs.Input.{before_bundle, split_head, input_in, input_of};

use crate::fault::UnitFault;
use season_file::splitting::{after_line, fault_line, line_len, section, skip_empty, title};

/// What an input is cut into: the bodies of two sections, and the bundle.
#[derive(Clone, Copy)]
pub(crate) struct Sections<'a> {
    pub(crate) units: &'a [u8],
    pub(crate) states: &'a [u8],
    pub(crate) bundle: &'a [u8],
}

/// Whether a bundle begins here.
fn begins_bundle(bytes: &[u8]) -> bool
    ensures { result ≡ bytes_eq (take 13 bytes.now) (codes "office bundle") }
{
    if bytes.len() < 13 {
        return false;
    }
    &bytes[..13] == b"office bundle".as_slice()
}

/// Returns how many bytes come before the first line that begins a bundle. The first byte begins a line.
fn before_bundle(bytes: &[u8]) -> usize
    ensures value { result ≡ before_bundle true bytes.now }
    ensures within { result ≤ length bytes.now }
{
    let mut rest = bytes;
    let mut count = 0;
    'lines: while !begins_bundle(rest) {
        let end = line_len(rest);
        if end == rest.len() {
            return count + end;
        }
        let (line, more) = rest.split_at(end + 1);
        count += line.len();
        rest = more;
    }
    count
}

/// Returns the two sections in their order, with the bundle. Otherwise returns what there is from the first wrong
/// line on, before the bundle.
fn split_head<'a>(text: &'a [u8], bundle: &'a [u8]) -> Result<Sections<'a>, &'a [u8]>
    ensures { MatchResult result (λ cut. split_head bundle.now text.now ≡ Ok (input_in cut))
        (λ rest. (length rest.now ≤ length text.now)
        × (split_head bundle.now text.now ≡ Err (rest.now ++ bundle.now))) }
{
    let (units, rest) = section(text, b"[units]".as_slice())?;
    let (states, rest) = section(rest, b"[states]".as_slice())?;
    if rest.is_empty() && !bundle.is_empty() {
        Ok(Sections {
            units,
            states,
            bundle,
        })
    } else {
        Err(rest)
    }
}

/// The line at which the last bytes of a text begin, of which there are so many.
fn line_of_last(text: &[u8], last: usize) -> u32
    requires short { length text.now ≤ most_bundle_bytes }
    requires within { last ≤ length text.now }
    ensures { (rest : List ℕ) → length rest ≡ last → result ≡ fault_line text.now rest }
{
    fault_line(text, &text[text.len() - last..])
}

/// Whether a text begins an input with units.
fn begins_input(text: &[u8]) -> bool
    ensures { result ≡ bytes_eq (title text.now) (codes "office units 1") }
{
    title(text) == b"office units 1".as_slice()
}

/// What an input is cut into, or the fault of its first line or of its sections.
pub(crate) fn split_input(text: &[u8]) -> Result<Sections<'_>, UnitFault>
    requires { length text.now ≤ most_bundle_bytes }
    ensures { MatchResult result (λ cut. input_of text.now ≡ Ok (input_in cut))
        (λ fault. input_of text.now ≡ Err fault) }
{
    if !begins_input(text) {
        return Err(UnitFault::BadFirstLine);
    }
    let rest = after_line(text);
    let (head, bundle) = rest.split_at(before_bundle(rest));
    match split_head(skip_empty(head), bundle) {
        Ok(cut) => Ok(cut),
        Err(left) => Err(UnitFault::Section {
            line: line_of_last(text, left.len() + bundle.len()),
        }),
    }
}
