// Whether two persons are equal in all fields.
ghost use Rattle.std.specs.Prelude.{◌≡◌, ◌↔◌, IsTrue};

use office_base::{Category, Person, Place};

/// Whether the two categories are one.
pub(crate) fn same_category(a: Category, b: Category) -> bool
    ensures { IsTrue result ↔ a ≡ b }
{
    a == b
}

/// Whether the two places are one.
fn same_place(a: Place, b: Place) -> bool
    ensures { IsTrue result ↔ a ≡ b }
{
    match (a, b) {
        (Place::Absent, Place::Absent) => true,
        (Place::Common(m), Place::Common(n)) => m == n,
        (Place::Relaxed(m), Place::Relaxed(n)) => m == n,
        _ => false,
    }
}

/// Whether the places in all four lists are the same.
fn same_places(a: &[Place; 4], b: &[Place; 4]) -> bool
    ensures { IsTrue result ↔ a.now ≡ b.now }
{
    for k in 0..4 {
        if !same_place(a[k], b[k]) {
            return false;
        }
    }
    true
}

/// Whether the two persons are the same, by number, category, traits and places.
pub fn same_person(a: &Person, b: &Person) -> bool
    ensures { IsTrue result ↔ a.now ≡ b.now }
{
    a.id == b.id
        && a.traits == b.traits
        && same_category(a.category, b.category)
        && same_places(&a.places, &b.places)
}
