// Lines and fields, as parts of the bytes that they are in.
ghost use Rattle.std.specs.Prelude.{◌≡◌, ◌<◌, ◌≤◌, ◌∷◌, [], length, IfSome, IfNone};
ghost use Rattle.office_text.specs.Lines.{lines_of, fields_of, drop_cr, skip_mark, trimmed, without_empty_last};

use memchr::memchr;

/// The bytes of a text after its byte order mark, where it begins with one, and else all of them.
pub fn skip_mark(bytes: &[u8]) -> &[u8]
    ensures value { result.now ≡ skip_mark bytes.now }
    ensures within { length result.now ≤ length bytes.now }
{
    match bytes {
        [0xEF, 0xBB, 0xBF, rest @ ..] => rest,
        _ => bytes,
    }
}

/// The first line of bytes after the mark, without its LF or CR LF, and the bytes after it. None where there is no
/// line.
pub fn next_text_line(bytes: &[u8]) -> Option<(&[u8], &[u8])>
    ensures none { IfNone result (lines_of bytes.now ≡ []) }
    ensures some { IfSome result (λ cut. lines_of bytes.now ≡ cut.0.now ∷ lines_of cut.1.now) }
    ensures shorter { IfSome result (λ cut. length cut.1.now < length bytes.now) }
{
    match memchr(b'\n', bytes) {
        Some(end) => Some((drop_cr(&bytes[..end]), &bytes[end + 1..])),
        None => last_line(bytes),
    }
}

/// The last line, without a CR at its end, and no bytes. None where it is empty.
fn last_line(bytes: &[u8]) -> Option<(&[u8], &[u8])>
    ensures none { IfNone result (without_empty_last (drop_cr bytes.now ∷ []) ≡ []) }
    ensures some { IfSome result (λ cut.
        without_empty_last (drop_cr bytes.now ∷ []) ≡ cut.0.now ∷ lines_of cut.1.now) }
    ensures shorter { IfSome result (λ cut. length cut.1.now < length bytes.now) }
{
    let line = drop_cr(bytes);
    if line.is_empty() {
        None
    } else {
        Some((line, &[]))
    }
}

/// A line without one CR at its end.
pub fn drop_cr(line: &[u8]) -> &[u8]
    ensures value { result.now ≡ drop_cr line.now }
    ensures within { length result.now ≤ length line.now }
{
    match line {
        [prefix @ .., b'\r'] => prefix,
        _ => line,
    }
}

/// A line without the commas at its end.
pub fn trim_commas(line: &[u8]) -> &[u8]
    ensures value { result.now ≡ trimmed line.now }
    ensures within { length result.now ≤ length line.now }
{
    let mut kept = line;
    while let [prefix @ .., b','] = kept {
        kept = prefix;
    }
    kept
}

/// Returns the first field of a line, and what follows its comma if there is one.
pub fn next_field(line: &[u8]) -> (&[u8], Option<&[u8]>)
    ensures last { IfNone result.1 (fields_of line.now ≡ result.0.now ∷ []) }
    ensures more { IfSome result.1 (λ rest.
        fields_of line.now ≡ result.0.now ∷ fields_of rest.now) }
    ensures shorter { IfSome result.1 (λ rest. length rest.now < length line.now) }
{
    match memchr(b',', line) {
        Some(end) => (&line[..end], Some(&line[end + 1..])),
        None => (line, None),
    }
}
