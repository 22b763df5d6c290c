// The code of a programme or an institute.
ghost use Rattle.std.specs.Prelude.{◌≡◌};
ghost use Rattle.std.proofs.Common.{lit≤};
ghost use Rattle.std.proofs.lemmas.Bool.{and_parts, leb-true};
ghost use Rattle.std.specs.List.{list_all};
ghost use Rattle.office_base.specs.Codes.{is_code, is_code_byte};

use crate::limits::{LONGEST_CODE, SHORTEST_CODE};
use crate::short_text::{ShortText, Spelling};

/// 1 to 16 letters A to Z and a to z, digits and dashes. Codes are compared byte by byte.
pub type Code = ShortText<CodeSpelling, LONGEST_CODE>;

/// How a code is spelled.
#[derive(Clone, Copy)]
pub struct CodeSpelling {}

impl Spelling<LONGEST_CODE> for CodeSpelling {
    ghost spells = { is_code };

    ghost fits = { λ bytes spelled. leb-true _ _ (and_parts _ _ (and_parts _ _ spelled).0).1 };

    ghost small = { lit≤ tt };

    fn spells(bytes: &[u8]) -> bool {
        SHORTEST_CODE <= bytes.len() && bytes.len() <= LONGEST_CODE && are_code_bytes(bytes)
    }
}

/// Returns whether all bytes are letters, digits or dashes.
fn are_code_bytes(bytes: &[u8]) -> bool
    ensures { result ≡ list_all is_code_byte bytes.now }
{
    bytes
        .iter()
        .all(|byte| byte.is_ascii_alphanumeric() || *byte == b'-')
}
