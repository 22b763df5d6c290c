// How many lines there are, and where bytes are cut.
ghost use Rattle.std.specs.Prelude.{◌≡◌, ◌<◌, ◌≤◌, ◌^◌, ◌++◌, List, ℕ, IfNone, IfSome, length};
ghost use Rattle.text_readers.specs.Reading.{lines_in};
ghost use Rattle.dossier_file.specs.Texts.{IsSplitAfter, IsNoHead};

use text_readers::{after, split_at_byte};

/// Returns how many lines there are. What follows the last LF is a line too.
pub(crate) fn line_count(bytes: &[u8]) -> u32
    requires { length bytes.now < 2 ^ 32 }
    ensures value { result ≡ lines_in bytes.now }
    ensures within { result ≤ length bytes.now }
{
    let mut rest = bytes;
    let mut count: u32 = 0;
    'lines: while let Some((_, later)) = split_at_byte(rest, b'\n') {
        count += 1;
        rest = later;
    }
    if rest.is_empty() { count } else { count + 1 }
}

/// The line of the fault of bytes that do not begin with a head. None where they do.
pub(crate) fn headless_line(bytes: &[u8], head: &[u8]) -> Option<u32>
    ensures none { IfNone result ((tail : List ℕ) × (bytes.now ≡ head.now ++ tail)) }
    ensures some { IfSome result (λ line. IsNoHead head.now bytes.now line) }
{
    if after(bytes, head).is_some() {
        return None;
    }
    match after(head, bytes) {
        Some(_) => Some(if bytes.is_empty() { 1 } else { 2 }),
        None => Some(1),
    }
}

/// The bytes cut after the first whole line that is this one. Where there is none, all of them, and nothing.
pub(crate) fn split_after_line<'a>(bytes: &'a [u8], ending: &[u8]) -> (&'a [u8], &'a [u8])
    ensures { IsSplitAfter ending.now bytes.now result.0.now result.1.now }
{
    let mut rest = bytes;
    'lines: while let Some((line, later)) = split_at_byte(rest, b'\n') {
        if line == ending {
            return bytes.split_at(bytes.len() - later.len());
        }
        rest = later;
    }
    (bytes, &[])
}
