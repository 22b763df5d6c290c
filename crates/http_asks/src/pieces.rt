// What the pieces of a path spell.
ghost use Rattle.std.specs.Prelude.{◌≡◌, ◌∷◌, [], IfNone, IfSome, option_copied, option_map};
ghost use Rattle.office_base.specs.Limits.{last_id, last_window};
ghost use Rattle.office_text.specs.Lines.{split_at_each};
ghost use Rattle.office_text.specs.Number.{number_within};
ghost use Rattle.http_asks.specs.Roads.{one_of, two_of};

use memchr::memchr;
use office_base::CandId;
use office_base::limits::{LAST_ID, LAST_WINDOW};
use office_text::read_number;

/// Returns the one piece. None if there is a slash.
pub(crate) fn one_piece(rest: &[u8]) -> Option<&[u8]>
    ensures { option_copied result ≡ one_of (split_at_each 47 rest.now) }
{
    match first_piece(rest, b'/') {
        (piece, None) => Some(piece),
        (_, Some(_)) => None,
    }
}

/// Returns the two pieces on both sides of the one slash. None if there is none, or more than one.
pub(crate) fn two_pieces(rest: &[u8]) -> Option<(&[u8], &[u8])>
    ensures some { IfSome result
        (λ pieces. split_at_each 47 rest.now ≡ pieces.0.now ∷ pieces.1.now ∷ []) }
    ensures none { IfNone result (two_of (split_at_each 47 rest.now) ≡ None) }
{
    let (one, after) = first_piece(rest, b'/');
    match first_piece(after?, b'/') {
        (other, None) => Some((one, other)),
        (_, Some(_)) => None,
    }
}

/// Returns the bytes before the first separator, and those after it if there is one.
pub(crate) fn first_piece(bytes: &[u8], separator: u8) -> (&[u8], Option<&[u8]>)
    ensures last { IfNone result.1 (split_at_each separator bytes.now ≡ result.0.now ∷ []) }
    ensures more { IfSome result.1 (λ rest.
        split_at_each separator bytes.now ≡ result.0.now ∷ split_at_each separator rest.now) }
{
    match memchr(separator, bytes) {
        Some(end) => (&bytes[..end], Some(&bytes[end + 1..])),
        None => (bytes, None),
    }
}

/// Returns the candidate whose number a piece spells.
pub(crate) fn read_candidate(piece: &[u8]) -> Option<CandId>
    ensures { option_map (λ cand. cand.0) result ≡ number_within 1 last_id piece.now }
{
    let id = read_number(piece, 1, LAST_ID)?;
    Some(CandId(id))
}

/// Returns the number of a round that a piece spells.
pub(crate) fn read_round(piece: &[u8]) -> Option<u16>
    ensures { result ≡ number_within 0 last_window piece.now }
{
    let round = read_number(piece, 0, LAST_WINDOW)?;
    Some(round as u16)
}
