// What a row of the register gives.
use office_base::{Person, Token};

/// A candidate with the token by which the candidate is known.
#[derive(Clone, Copy)]
pub struct Entry {
    pub person: Person,
    pub token: Token,
}
