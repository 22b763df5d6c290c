// A step: seats of one merit list, some of them protected for traits, and the people who seek them.
ghost use Rattle.std.specs.Prelude.{◌≡◌, sum};

use crate::{CandId, ListId, People};

/// Which seats of a programme a step fills: open ones, those of a category, or those that a category left unfilled.
#[derive(Clone, Copy, Debug, PartialEq, Eq)]
pub enum StepKind {
    Open,
    Ews,
    Obc,
    Sc,
    St,
    Dereserved,
}

/// How many seats of a step are protected for each trait, by the trait's number. The other seats are free.
#[derive(Clone, Copy, PartialEq, Eq)]
pub struct Protections {
    pub counts: [u16; 6],
}

impl Protections {
    /// Returns how many seats are protected for some trait.
    pub fn sum(&self) -> u32
        ensures { result ≡ sum self.now.counts }
    {
        let [women, disabled, servicemen, sports, fighters, local] = self.counts;
        let first = u32::from(women) + u32::from(disabled) + u32::from(servicemen);
        first + u32::from(sports) + u32::from(fighters) + u32::from(local)
    }
}

/// A candidate on a protected position. `slot` is the number of the position's trait, from 0 to 5.
#[derive(Clone, Copy, PartialEq, Eq)]
pub struct Pair {
    pub cand: CandId,
    pub slot: u8,
}

/// One step of a programme. The people are in merit order, the best first.
#[derive(Drop)]
pub struct Step {
    pub list: ListId,
    pub seats: u16,
    pub protections: Protections,
    pub people: People,
}
