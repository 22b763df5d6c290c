// What a code gets behind it.
ghost use Rattle.std.specs.Prelude.{◌≡◌};
ghost use Rattle.quota_units.specs.Writing.{bytes_of};

/// What a field of a row gets behind it.
#[derive(Clone, Copy, PartialEq, Eq)]
pub(crate) enum Ending {
    /// The field stays.
    Nothing,
    /// It becomes the home unit.
    Home,
    /// It becomes the unit for all others.
    Other,
}

impl Ending {
    /// The bytes that are put behind.
    pub(crate) fn bytes(self) -> &'static [u8]
        ensures { result.now ≡ bytes_of self }
    {
        match self {
            Ending::Nothing => &[],
            Ending::Home => b"-HS".as_slice(),
            Ending::Other => b"-OS".as_slice(),
        }
    }
}
