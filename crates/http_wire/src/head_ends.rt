// Where the head of a message ends.
ghost use Rattle.std.specs.Prelude.{◌≡◌, ◌≤◌, ◌+◌, ◌∷◌, [], length, IfSome, IfNone};
ghost use Rattle.http_wire.specs.HeadEnds.{closed_lines, head_len, is_empty_line};

use memchr::memchr;

/// How many bytes the head takes that begins the bytes: empty lines, then lines that are not empty, up to the first empty
/// one after these, with it. None where no head has ended.
pub fn head_len(bytes: &[u8]) -> Option<usize>
    ensures value { result ≡ head_len bytes.now }
    ensures within { IfSome result (λ end. end ≤ length bytes.now) }
{
    let mut rest = bytes;
    let mut begun = false;
    while let Some((line, after)) = next_line(rest) {
        rest = after;
        if !is_empty_line(line) {
            begun = true;
        } else if begun {
            return Some(bytes.len() - rest.len());
        }
    }
    None
}

/// The first line that an LF ended, without that LF, and the bytes after it. None where no LF came.
fn next_line(bytes: &[u8]) -> Option<(&[u8], &[u8])>
    ensures none { IfNone result (closed_lines bytes.now ≡ []) }
    ensures some { IfSome result (λ cut.
        closed_lines bytes.now ≡ cut.0.now ∷ closed_lines cut.1.now) }
    ensures size { IfSome result (λ cut.
        length bytes.now ≡ length cut.0.now + 1 + length cut.1.now) }
{
    match memchr(b'\n', bytes) {
        Some(end) => Some((&bytes[..end], &bytes[end + 1..])),
        None => None,
    }
}

/// Whether a line without its LF is empty, or a CR alone.
fn is_empty_line(line: &[u8]) -> bool
    ensures { result ≡ is_empty_line line.now }
{
    match line {
        [] => true,
        [byte] => *byte == b'\r',
        _ => false,
    }
}
