// A dossier with a special round, cut into the dossier of its season and the two sections behind it.
ghost use Rattle.std.specs.Prelude.{IfNone, IfSome};
ghost use Rattle.dossier_file.specs.Special.{HasNoSpecial, IsSpecialCut};

use crate::splitting::{find_title, split_at_titles};
use season_file::splitting::after_line;

/// The parts of a dossier with a special round.
#[derive(Clone, Copy)]
pub struct SpecialParts<'a> {
    /// The dossier of the season.
    pub front: &'a [u8],
    /// The lists that were handed in for the special round, without their section line.
    pub lists: &'a [u8],
    /// The texts of the special round, without their section line.
    pub published: &'a [u8],
}

/// Returns the parts of a dossier with a special round. None if and only if one of the lines `[lists]` and `[special]` is
/// missing behind the line `[published]`, or the bytes have no published texts at all.
pub fn special_parts(bytes: &[u8]) -> Option<SpecialParts<'_>>
    ensures some { IfSome result (λ parts.
        IsSpecialCut bytes.now parts.front.now parts.lists.now parts.published.now) }
    ensures none { IfNone result (HasNoSpecial bytes.now) }
{
    let parts = split_at_titles(bytes)?;
    let texts = parts.published;
    let first = find_title(texts, b"[lists]".as_slice())?;
    let rest = after_line(&texts[first..]);
    let second = find_title(rest, b"[special]".as_slice())?;
    Some(SpecialParts {
        front: &bytes[..bytes.len() - texts.len() + first],
        lists: &rest[..second],
        published: after_line(&rest[second..]),
    })
}
