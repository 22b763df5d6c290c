// A dossier, cut into its parts.
ghost use Rattle.std.specs.Prelude.{ℕ, IfNone, IfSome};
ghost use Rattle.dossier_file.specs.Split.{HasNoSection, IsSplit, IsTitledAt};

use office_text::skip_mark;
use season_file::splitting::{after_line, line_len, title};

/// The three parts of a dossier.
#[derive(Clone, Copy)]
pub(crate) struct Parts<'a> {
    pub(crate) bundle: &'a [u8],
    /// The body of the requests, without its section line.
    pub(crate) requests: &'a [u8],
    /// The published texts.
    pub(crate) published: &'a [u8],
}

/// Where the first line of this name begins. None where there is none.
pub(crate) fn find_title(text: &[u8], name: &[u8]) -> Option<usize>
    ensures some { IfSome result (λ at. IsTitledAt name.now text.now at) }
    ensures none { IfNone result ((at : ℕ) → IsTitledAt name.now text.now at → ⊥) }
{
    let mut rest = text;
    let mut at: usize = 0;
    'lines: while !rest.is_empty() {
        if title(rest) == name {
            return Some(at);
        }
        let end = line_len(rest);
        if end == rest.len() {
            return None;
        }
        at += end + 1;
        (_, rest) = rest.split_at(end + 1);
    }
    None
}

/// The parts of a dossier. None where one of the two lines between them is missing.
pub(crate) fn split_at_titles(bytes: &[u8]) -> Option<Parts<'_>>
    ensures some { IfSome result (λ parts.
        IsSplit bytes.now parts.bundle.now parts.requests.now parts.published.now) }
    ensures none { IfNone result (HasNoSection bytes.now) }
{
    let text = skip_mark(bytes);
    let first = find_title(text, b"[requests]".as_slice())?;
    let rest = after_line(&text[first..]);
    let second = find_title(rest, b"[published]".as_slice())?;
    Some(Parts {
        bundle: &bytes[..bytes.len() - text.len() + first],
        requests: &rest[..second],
        published: after_line(&rest[second..]),
    })
}
