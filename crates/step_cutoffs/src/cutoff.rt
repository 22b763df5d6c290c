// A cutoff of a step for some traits: with which places the step admits a person.
ghost use Rattle.std.specs.Prelude.{IsTrue, ◌↔◌};
ghost use Rattle.office_base.specs.Person.{number_of};
ghost use Rattle.step_cutoffs.specs.Cutoff.{IsWithin};

use office_base::Place;

/// Says with which places of its list a step admits a person: those whom it admitted, and one person more.
#[derive(Clone, Copy, PartialEq, Eq)]
pub enum Cutoff {
    /// With no place: the step admits nobody.
    Nobody,
    /// With this place or a better one. `last` is a number of the programme's merit list.
    UpTo { last: u32 },
    /// With every place: the step admits anybody who has one.
    Anybody,
}

impl Cutoff {
    /// Returns whether the place is within the cutoff.
    pub fn admits(self, place: Place) -> bool
        ensures { IsTrue result ↔ IsWithin self (number_of place) }
    {
        match (self, place.number()) {
            (Cutoff::UpTo { last }, Some(number)) => number <= last,
            (Cutoff::Anybody, Some(_)) => true,
            _ => false,
        }
    }
}
