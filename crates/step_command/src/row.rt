// The rows of a sheet: its lines that are not empty, with their numbers.
ghost use Rattle.std.specs.Prelude.{◌≡◌, ◌≤◌, ◌<◌, ◌+◌, ◌^◌, ◌∷◌, [], true, false, length, IfSome, IfNone};
ghost use Rattle.step_command.specs.Reading.{rest_rows, rest_numbers, protects_next};
ghost use Rattle.step_command.specs.Sheet.{is_protect};

use crate::line::is_protect;
use office_text::{next_text_line, trim_commas};

/// The number of the next row, and the row with the bytes after it; or the number of the line after the last where
/// there is no row. `number` is that of the first line of the bytes.
pub(crate) fn row_or_end(bytes: &[u8], number: u32) -> (u32, Option<(&[u8], &[u8])>)
    requires { number + length bytes.now < 2 ^ 32 }
    ensures none { IfNone result.1 (rest_rows bytes.now ≡ []) }
    ensures end { IfNone result.1 (rest_numbers number bytes.now ≡ result.0 ∷ []) }
    ensures some { IfSome result.1 (λ row. rest_rows bytes.now ≡ row.0.now ∷ rest_rows row.1.now) }
    ensures number { IfSome result.1 (λ row.
        rest_numbers number bytes.now ≡ result.0 ∷ rest_numbers (result.0 + 1) row.1.now) }
    ensures within { IfSome result.1 (λ row.
        result.0 + 1 + length row.1.now ≤ number + length bytes.now) }
    ensures shorter { IfSome result.1 (λ row. length row.1.now < length bytes.now) }
{
    let mut rest = bytes;
    let mut at = number;
    while let Some((line, after)) = next_text_line(rest) {
        let text = trim_commas(line);
        if !text.is_empty() {
            return (at, Some((text, after)));
        }
        rest = after;
        at += 1;
    }
    (at, None)
}

/// The number of the next row, the row and the bytes after it. None where there is no row.
pub(crate) fn next_row(bytes: &[u8], number: u32) -> Option<(u32, &[u8], &[u8])>
    requires { number + length bytes.now < 2 ^ 32 }
    ensures none { IfNone result (rest_rows bytes.now ≡ []) }
    ensures some { IfSome result (λ row. rest_rows bytes.now ≡ row.1.now ∷ rest_rows row.2.now) }
    ensures number { IfSome result (λ row.
        rest_numbers number bytes.now ≡ row.0 ∷ rest_numbers (row.0 + 1) row.2.now) }
    ensures within { IfSome result (λ row.
        row.0 + 1 + length row.2.now ≤ number + length bytes.now) }
    ensures shorter { IfSome result (λ row. length row.2.now < length bytes.now) }
{
    match row_or_end(bytes, number) {
        (at, Some((line, after))) => Some((at, line, after)),
        (_, None) => None,
    }
}

/// The number of the next row, the row and the bytes after it, where it is one that protects seats.
pub(crate) fn next_protect(bytes: &[u8], number: u32) -> Option<(u32, &[u8], &[u8])>
    requires { number + length bytes.now < 2 ^ 32 }
    ensures none { IfNone result (protects_next (rest_rows bytes.now) ≡ false) }
    ensures protect { IfSome result (λ row. is_protect row.1.now ≡ true) }
    ensures some { IfSome result (λ row. rest_rows bytes.now ≡ row.1.now ∷ rest_rows row.2.now) }
    ensures number { IfSome result (λ row.
        rest_numbers number bytes.now ≡ row.0 ∷ rest_numbers (row.0 + 1) row.2.now) }
    ensures within { IfSome result (λ row.
        row.0 + 1 + length row.2.now ≤ number + length bytes.now) }
    ensures shorter { IfSome result (λ row. length row.2.now < length bytes.now) }
{
    match next_row(bytes, number) {
        Some((at, line, after)) if is_protect(line) => Some((at, line, after)),
        _ => None,
    }
}
