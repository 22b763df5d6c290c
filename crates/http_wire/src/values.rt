// What the name and the value of one field say.
ghost use Rattle.std.specs.Prelude.{◌≡◌, ◌≤◌, Some, None, length, reverse, IsTrue, if◌then◌else◌};
ghost use Rattle.std.specs.Str.{str_eq_ignore_ascii_case};
ghost use Rattle.httparse.specs.Grammar.{skip_ows, trim_ows};
ghost use Rattle.office_text.specs.Number.{are_digits, value_of};
ghost use Rattle.http_wire.specs.Fields.{is_close, is_length, lists_close};

use office_text::next_field;

/// Whether two texts are the same without regard to ASCII case.
pub fn is_same_name(name: &[u8], wanted: &[u8]) -> bool
    ensures { result ≡ str_eq_ignore_ascii_case name.now wanted.now }
{
    name.eq_ignore_ascii_case(wanted)
}

/// The number that a run of 1 to 18 digits spells, which may begin with zeros. None for any other text.
pub fn length_of(text: &[u8]) -> Option<u64>
    ensures { result ≡ (if is_length text.now then Some (value_of text.now) else None) }
{
    if is_length(text) {
        Some(value_of(text))
    } else {
        None
    }
}

/// Whether a text is a run of 1 to 18 digits.
fn is_length(text: &[u8]) -> bool
    ensures { result ≡ is_length text.now }
{
    1 <= text.len() && text.len() <= 18 && are_digits(text)
}

/// Whether all bytes are digits.
fn are_digits(text: &[u8]) -> bool
    ensures { result ≡ are_digits text.now }
{
    text.iter().all(|byte| byte.is_ascii_digit())
}

/// The value of digits.
fn value_of(digits: &[u8]) -> u64
    requires digits { IsTrue (are_digits digits.now) }
    requires few { length digits.now ≤ 18 }
    ensures { result ≡ value_of digits.now }
{
    let mut value = 0u64;
    for digit in digits {
        value = value * 10 + u64::from(*digit - b'0');
    }
    value
}

/// Whether a part of the value between commas is `close`, without regard to case and to the blanks around it.
pub fn lists_close(text: &[u8]) -> bool
    ensures { result ≡ lists_close text.now }
{
    let mut rest = text;
    loop {
        let (part, more) = next_field(rest);
        if is_close(part) {
            return true;
        }
        match more {
            Some(after) => rest = after,
            None => return false,
        }
    }
}

/// Whether a part is `close`, without regard to case and to the blanks around it.
fn is_close(part: &[u8]) -> bool
    ensures { result ≡ is_close part.now }
{
    is_same_name(trim_end(trim_start(part)), b"close")
}

/// The bytes from the first that is neither a space nor a tab.
fn trim_start(text: &[u8]) -> &[u8]
    ensures { result.now ≡ skip_ows text.now }
{
    let mut kept = text;
    while let [b' ' | b'\t', rest @ ..] = kept {
        kept = rest;
    }
    kept
}

/// The bytes up to the last that is neither a space nor a tab.
fn trim_end(text: &[u8]) -> &[u8]
    ensures { result.now ≡ reverse (skip_ows (reverse text.now)) }
{
    let mut kept = text;
    while let [prefix @ .., b' ' | b'\t'] = kept {
        kept = prefix;
    }
    kept
}
