// A message in the bytes that a connection holds.
ghost use Rattle.std.specs.Prelude.{◌≡◌, true};
ghost use Rattle.std.specs.Str.{is_utf8};
ghost use Rattle.http_wire.specs.Fields.{closes};

use crate::fields::Fields;

/// The head of a message, whose parts are parts of its bytes.
#[derive(Drop)]
pub struct Head<'a> {
    pub method: &'a [u8],
    pub target: &'a [u8],
    /// The version is HTTP/1.0 at 0, and HTTP/1.1 at 1.
    pub minor: u8,
    pub fields: Fields<'a>,
    pub ghost text: { is_utf8 target.now ≡ true },
}

/// A message, whose parts are parts of the bytes that are held.
#[derive(Drop)]
pub struct HeldMessage<'a> {
    pub method: &'a [u8],
    /// What is asked for, which is text.
    pub target: &'a [u8],
    /// The version is HTTP/1.0 at 0, and HTTP/1.1 at 1.
    pub minor: u8,
    pub fields: Fields<'a>,
    pub body: &'a [u8],
    /// How many of the held bytes the message takes.
    pub len: usize,
    pub ghost text: { is_utf8 target.now ≡ true },
}

impl HeldMessage<'_> {
    ghost use Rattle.http_wire.specs.Told.{told_fields};

    /// Whether the connection closes after the reply: the version is 1.0, or a `Connection` lists `close`.
    pub fn closes(&self) -> bool
        ensures { result ≡ closes self.now.minor (told_fields self.now.fields) }
    {
        self.fields.closes(self.minor)
    }
}

/// What held bytes come to.
#[derive(Drop)]
pub enum Arrived<'a> {
    /// Nothing yet: more bytes are wanted.
    More,
    /// They are refused with this status, and the connection closes: 400, 411, 413, 431 or 501.
    Refused(u16),
    /// They begin with a whole message.
    Whole(HeldMessage<'a>),
}
