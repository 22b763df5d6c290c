// What the rows of a section are keyed by.

/// What the keys of a section with home states are.
#[derive(Clone, Copy, PartialEq, Eq)]
pub(crate) enum Keys {
    /// Codes of divided programmes, of at most 13 bytes.
    Units,
    /// Numbers of candidates.
    States,
}
