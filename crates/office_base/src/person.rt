// A person: who, of which category, with which traits, at which places of the merit lists.
ghost use Rattle.std.specs.Prelude.{◌≡◌, ◌<◌, IsTrue, ◌↔◌};
ghost use Rattle.office_base.specs.Person.{IsList, IsTraitSet, has_trait, IsBetter, number_of, place_in};

/// The number of a candidate, from 1 to 999,999,999.
#[derive(Clone, Copy, Debug, PartialEq, Eq, PartialOrd, Ord)]
pub struct CandId(pub u32);

/// The number of a programme, from 0 in the order in which programmes first appear.
#[derive(Clone, Copy, Debug, PartialEq, Eq, PartialOrd, Ord)]
pub struct ProgId(pub u16);

/// The number of a merit list, from 1 to 4.
#[derive(Clone, Copy, PartialEq, Eq, PartialOrd, Ord)]
pub struct ListId(pub u8);

/// A set of the traits W, D, X, S, F, L. Bits 0 to 5 are these traits, in this order; bits 6 and 7 are 0.
#[derive(Clone, Copy, PartialEq, Eq)]
pub struct TraitSet(pub u8);

/// The vertical category of a candidate.
#[derive(Clone, Copy, PartialEq, Eq)]
pub enum Category {
    Gen,
    Ews,
    Obc,
    Sc,
    St,
}

/// A candidate's place in one merit list, from 1 to 9,999,999; a smaller number is better.
#[derive(Clone, Copy, PartialEq, Eq)]
pub enum Place {
    Absent,
    Common(u32),
    Relaxed(u32),
}

/// A candidate as the choice of a step sees one. `places` has the places in the lists 1 to 4.
#[derive(Clone, Copy, PartialEq, Eq)]
pub struct Person {
    pub id: CandId,
    pub category: Category,
    pub traits: TraitSet,
    pub places: [Place; 4],
}

impl TraitSet {
    /// Returns whether the trait of this number, from 0 to 5, is in the set.
    pub fn has(self, t: u8) -> bool
        requires set { IsTraitSet self }
        requires number { t < 6 }
        ensures { result ≡ has_trait self t }
    {
        self.0 & (1 << t) != 0
    }
}

impl Place {
    /// Returns the number of a place, whether common or relaxed.
    pub fn number(self) -> Option<u32>
        ensures { result ≡ number_of self }
    {
        match self {
            Place::Absent => None,
            Place::Common(number) | Place::Relaxed(number) => Some(number),
        }
    }
}

impl Person {
    /// Returns the place in a list.
    pub fn place(&self, list: ListId) -> Place
        requires { IsList list }
        ensures { result ≡ place_in list self.now }
    {
        self.places[usize::from(list.0 - 1)]
    }
}

/// Returns whether both persons have a place in the list and the first one's number is smaller.
pub fn better(a: &Person, b: &Person, list: ListId) -> bool
    requires { IsList list }
    ensures { IsTrue result ↔ IsBetter list a.now b.now }
{
    match (a.place(list).number(), b.place(list).number()) {
        (Some(first), Some(second)) => first < second,
        _ => false,
    }
}
