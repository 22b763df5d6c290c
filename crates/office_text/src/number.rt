// Numbers as they are spelled: decimal digits alone.
ghost use Rattle.std.specs.Prelude.{◌≡◌, ◌++◌, ◌<◌, ◌^◌, ℕ, IsTrue, OnOk, OnErr, Some, None, nat_lt, if◌then◌else◌};
ghost use Rattle.std.specs.Fmt.{decimal};
ghost use Rattle.office_text.specs.Number.{are_digits, is_number, value_of, number_within};

use itoa::Buffer;
use office_base::{OutOfMemory, Text};

/// The number that a text spells, where it lies from `low` to `high`. A sign, a leading zero or any other byte
/// makes the text no number.
pub fn read_number(text: &[u8], low: u32, high: u32) -> Option<u32>
    ensures { result ≡ number_within low high text.now }
{
    if !is_number(text) {
        return None;
    }
    let number = value_of(text)?;
    if low <= number && number <= high {
        Some(number)
    } else {
        None
    }
}

/// Puts the digits of a number at the end. Where there is no memory for them, the text is as before.
pub fn push_number(out: &mut Text, number: u32) -> Result<(), OutOfMemory>
    ensures ok { OnOk result (out.new ≡ out.old ++ decimal number) }
    ensures err { OnErr result (out.new ≡ out.old) }
{
    let mut buffer = Buffer::new();
    out.extend_from_slice(buffer.format(number).as_bytes())
}

/// Whether a text is one digit, or several that do not begin with 0.
fn is_number(text: &[u8]) -> bool
    ensures { result ≡ is_number text.now }
{
    match text {
        [] => false,
        [digit] => digit.is_ascii_digit(),
        [first, rest @ ..] => (b'1'..=b'9').contains(first) && are_digits(rest),
    }
}

/// Whether all bytes are digits.
fn are_digits(text: &[u8]) -> bool
    ensures { result ≡ are_digits text.now }
{
    text.iter().all(|byte| byte.is_ascii_digit())
}

/// The value of digits, where it fits 32 bits.
fn value_of(digits: &[u8]) -> Option<u32>
    requires { IsTrue (are_digits digits.now) }
    ensures { result
        ≡ (if nat_lt (value_of digits.now) (2 ^ 32) then Some (value_of digits.now) else None) }
{
    let mut value = 0u64;
    for digit in digits {
        value = value * 10 + u64::from(*digit - b'0');
        if value > u64::from(u32::MAX) {
            return None;
        }
    }
    Some(value as u32)
}
