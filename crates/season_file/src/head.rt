// The rows of the season's section: how many rounds there are, and who is the clerk.
ghost use Rattle.std.specs.Prelude.{◌≡◌, ◌+◌, ◌≤◌, IfOk, IfSome};
ghost use Rattle.section_rows.specs.Rows.{rows_of};
ghost use Rattle.season_file.specs.Head.{head_of, key_count, with_clerk, with_row, with_rounds};

use office_base::{OutOfMemory, Token};
use office_text::read_number;
use section_rows::Rows;
use std::alloc::Global;

/// The number of rounds, from 1 to 10, the clerk's token, and the row of the section that gives the token.
#[derive(Clone, Copy)]
pub struct Head {
    pub rounds: u16,
    pub clerk: Token,
    pub row: u32,
}

/// What rows gave so far: the number of rounds, and the clerk's token with its row.
#[derive(Clone, Copy)]
pub(crate) struct Keys {
    pub(crate) rounds: Option<u16>,
    pub(crate) clerk: Option<(Token, u32)>,
}

/// The keys with what the row of this number gives. None where the row is wrong.
fn with_row(keys: Keys, number: u32, row: &Rows<'_>) -> Option<Keys>
    ensures value { result ≡ with_row keys number row.now.row }
    ensures more { IfSome result (λ next. key_count next ≡ key_count keys + 1) }
{
    if row.len() >= 3 {
        return None;
    }
    if row.field(0) == b"rounds".as_slice() {
        with_rounds(keys, read_number(row.field(1), 1, 10))
    } else if row.field(0) == b"clerk".as_slice() {
        with_clerk(keys, number, Token::read(row.field(1)))
    } else {
        None
    }
}

/// What the section's body gives, or the number of its first wrong row, which is one more than the number of rows where a key is
/// missing.
pub(crate) fn read_head(alloc: Global, body: &[u8]) -> Result<Result<Head, u32>, OutOfMemory>
    ensures { IfOk result (λ answer. answer ≡ head_of (rows_of body.now)) }
{
    let mut rows = Rows::new(alloc, body);
    let mut keys = Keys {
        rounds: None,
        clerk: None,
    };
    let mut number = 1;
    'rows: while rows.advance()? {
        match with_row(keys, number, &rows) {
            Some(next) => keys = next,
            None => return Ok(Err(number)),
        }
        number += 1;
    }
    Ok(match (keys.rounds, keys.clerk) {
        (Some(rounds), Some((clerk, row))) => Ok(Head { rounds, clerk, row }),
        _ => Err(number),
    })
}

/// The keys with the number of rounds, where it is spelled and no row gave it before.
fn with_rounds(keys: Keys, value: Option<u32>) -> Option<Keys>
    requires { IfSome value (λ n. n ≤ 10) }
    ensures value { result ≡ with_rounds keys value }
    ensures more { IfSome result (λ next. key_count next ≡ key_count keys + 1) }
{
    match (keys.rounds, value) {
        (None, Some(rounds)) => Some(Keys {
            rounds: Some(rounds as u16),
            clerk: keys.clerk,
        }),
        _ => None,
    }
}

/// The keys with the clerk's token and its row, where it is spelled and no row gave it before.
fn with_clerk(keys: Keys, number: u32, value: Option<Token>) -> Option<Keys>
    ensures value { result ≡ with_clerk keys number value }
    ensures more { IfSome result (λ next. key_count next ≡ key_count keys + 1) }
{
    match (keys.clerk, value) {
        (None, Some(token)) => Some(Keys {
            rounds: keys.rounds,
            clerk: Some((token, number)),
        }),
        _ => None,
    }
}
