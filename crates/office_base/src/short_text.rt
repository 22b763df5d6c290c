// A short text: a few bytes that are spelled in a stated way. It allocates nothing.
ghost use Rattle.std.specs.Prelude.{◌≡◌, ◌≤◌, ℕ, List, Bool, true, length, Some, None, IsTrue, IfSome, if◌then◌else◌, nat_eq};
ghost use Rattle.std.proofs.Common.{rules};
ghost use Rattle.std.specs.Cmp.{partial_order_from_own_ties};
ghost use Rattle.std.specs.Cmp.Lexicographic.{slice_cmp, pointwise};
ghost use Rattle.std.specs.Cmp.Rules.{comparing, hashing};
ghost use Rattle.std.specs.Hash as fed;
ghost use Rattle.std.specs.Ordering.{nat_cmp, as_partial_cmp};

use crate::padding::padded;
use std::cmp::Ordering;
use std::hash::{Hash, Hasher};
use std::marker::{Model, PhantomData};

/// How a short text is spelled, in at most `N` bytes.
pub trait Spelling<const N: usize> {
    /// Whether the bytes spell one.
    ghost spells: { List ℕ → Bool };

    /// They are at most `N`.
    ghost fits: { (bytes : List ℕ) → spells bytes ≡ true → length bytes ≤ N };

    /// Their number fits into one byte of the text.
    ghost small: { N ≤ 255 };

    /// Returns whether the bytes spell one.
    fn spells(bytes: &[u8]) -> bool
        ensures { result ≡ spells bytes.now };
}

/// At most `N` bytes that are spelled as `K` says. They are compared byte by byte.
#[derive(Clone, Copy)]
pub struct ShortText<K: Spelling<N>, const N: usize> {
    bytes: [u8; N],
    len: u8,
    spelling: PhantomData<K>,
}

impl<K: Spelling<N>, const N: usize> Model for ShortText<K, N> {
    ghost use Rattle.std.specs.Prelude.{List, ℕ, length, take, IsTrue};
    ghost use Rattle.std.proofs.Common.{sym};
    ghost use Rattle.office_base.specs.Codes.{padded, IsPadded};

    ghost Value = { List ℕ };

    ghost view = { λ a. take a.len a.bytes };

    ghost invariant = { λ a. IsTrue (K.spells (take a.len a.bytes)) × IsPadded N a.bytes (take a.len a.bytes) a.len };

    ghost inverse = { λ d. record { bytes = padded N d; len = length d; spelling = record {} } };

    ghost inverse_ok = { λ a h i. record { bytes = sym h.1.same i; len = h.1.long i; spelling = record {} } };
}

impl<K: Spelling<N>, const N: usize> ShortText<K, N> {
    /// Returns the text that these bytes spell, and None if and only if they spell none. It allocates nothing.
    pub fn read(bytes: &[u8]) -> Option<ShortText<K, N>>
        ensures { result ≡ (if K.spells bytes.now then Some bytes.now else None) }
    {
        if !K::spells(bytes) {
            return None;
        }
        Some(ShortText {
            bytes: padded(bytes),
            len: bytes.len() as u8,
            spelling: PhantomData,
        })
    }

    /// Returns the bytes that spell it.
    pub fn bytes(&self) -> &[u8]
        ensures same { result.now ≡ self.now }
        ensures spelled { IsTrue (K.spells self.now) }
    {
        &self.bytes[..usize::from(self.len)]
    }
}

impl<K: Spelling<N>, const N: usize> PartialEq for ShortText<K, N> {
    ghost eq = { pointwise nat_eq };

    ghost laws = { Prim.search (comparing, rules) };

    fn eq(&self, other: &ShortText<K, N>) -> bool {
        self.bytes() == other.bytes()
    }
}

impl<K: Spelling<N>, const N: usize> Eq for ShortText<K, N> {
    ghost laws = { Prim.search (comparing, rules) };
}

impl<K: Spelling<N>, const N: usize> Ord for ShortText<K, N> {
    ghost cmp = { slice_cmp nat_cmp };

    ghost total = { Prim.search (comparing, rules) };

    ghost matches_partial_cmp = { Prim.search (comparing, rules) };

    ghost matches_eq = { Prim.search (comparing, rules) };

    fn cmp(&self, other: &ShortText<K, N>) -> Ordering {
        self.bytes().cmp(other.bytes())
    }
}

impl<K: Spelling<N>, const N: usize> PartialOrd for ShortText<K, N> {
    ghost partial_cmp = { as_partial_cmp (slice_cmp nat_cmp) };

    ghost laws = { partial_order_from_own_ties (Prim.search (comparing, rules)) (Prim.search (comparing, rules)) };

    fn partial_cmp(&self, other: &ShortText<K, N>) -> Option<Ordering> {
        Some(self.cmp(other))
    }
}

impl<K: Spelling<N>, const N: usize> Hash for ShortText<K, N> {
    ghost hash_input = { fed.slice fed.u8 };

    ghost respects_eq = { Prim.search (hashing, rules) };

    fn hash<H: Hasher>(&self, state: &mut H) {
        self.bytes().hash(state);
    }
}
