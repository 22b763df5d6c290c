// A value of whose entries a crash leaves the first ones.
ghost use Rattle.std.specs.Prelude.{ℕ};

use office_base::Booked;

/// Keeps its first entries for good: a crash does not take them back.
/// A value that keeps each entry at once keeps as many as it has.
pub trait Keeps: Booked {
    /// How many of its entries are kept, from the oldest on.
    ghost kept: { Self → ℕ };
}
