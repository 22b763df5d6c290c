// The token by which a candidate or the clerk is known.
ghost use Rattle.std.specs.Prelude.{◌≡◌};
ghost use Rattle.std.proofs.Common.{lit≤};
ghost use Rattle.std.proofs.lemmas.Bool.{and_parts, leb-true};
ghost use Rattle.std.specs.Char.{is_ascii_alphanumeric};
ghost use Rattle.std.specs.List.{list_all};
ghost use Rattle.office_base.specs.Codes.{is_token};

use crate::limits::{LONGEST_TOKEN, SHORTEST_TOKEN};
use crate::short_text::{ShortText, Spelling};

/// 8 to 32 letters A to Z and a to z and digits. Tokens are compared byte by byte.
pub type Token = ShortText<TokenSpelling, LONGEST_TOKEN>;

/// How a token is spelled.
#[derive(Clone, Copy)]
pub struct TokenSpelling {}

impl Spelling<LONGEST_TOKEN> for TokenSpelling {
    ghost spells = { is_token };

    ghost fits = { λ bytes spelled. leb-true _ _ (and_parts _ _ (and_parts _ _ spelled).0).1 };

    ghost small = { lit≤ tt };

    fn spells(bytes: &[u8]) -> bool {
        SHORTEST_TOKEN <= bytes.len() && bytes.len() <= LONGEST_TOKEN && are_token_bytes(bytes)
    }
}

/// Returns whether all bytes are letters or digits.
fn are_token_bytes(bytes: &[u8]) -> bool
    ensures { result ≡ list_all is_ascii_alphanumeric bytes.now }
{
    bytes.iter().all(|byte| byte.is_ascii_alphanumeric())
}
