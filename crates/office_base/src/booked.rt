// A value that keeps numbered entries.
ghost use Rattle.std.specs.Prelude.{◌≡◌, ℕ, List, true, map};
ghost use Rattle.office_base.specs.Numbered.{last_of_numbers, rises};

/// Keeps a list of entries with rising numbers over a basis that no call changes, and counts its failures.
pub trait Booked {
    type Item;

    /// The basis of the value, which no call changes.
    ghost Basis: { Type 0 };

    ghost basis: { Self → Basis };

    /// The entries, the oldest first.
    ghost entries: { Self → List Self.Item };

    /// The number of an entry.
    ghost number: { Self.Item → ℕ };

    /// How often something failed in it.
    ghost count: { Self → ℕ };

    /// Returns the number of the last entry, or 0 if there is none. The numbers rise, and the first is above 0.
    fn last_number(&self) -> u64
        ensures last { result ≡ last_of_numbers (map number (entries self.now)) }
        ensures rising { rises 0 (map number (entries self.now)) ≡ true };
}
