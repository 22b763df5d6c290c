// What is drawn for a candidate.
ghost use Rattle.std.specs.Prelude.{◌≡◌, ◌<◌, ◌≤◌};
ghost use Rattle.season_generator.specs.Bundle.{category_of, profile_at, stride_of};
ghost use Rattle.season_generator.specs.Draws.{state_after};

use crate::draws::Draws;
use office_base::Category;

/// What is drawn for a candidate.
#[derive(Clone, Copy, PartialEq, Eq)]
pub struct Profile {
    pub category: Category,
    /// Whether the candidate has the trait of women.
    pub women: bool,
    /// Whether the candidate has that of persons with disabilities.
    pub disabled: bool,
    /// Whether both places of the candidate are relaxed.
    pub relaxed: bool,
    /// The number of the first programme chosen, below 100.
    pub first: u32,
    /// How far each further one is from the one before: 1, 3, 7 or 9.
    pub stride: u32,
}

impl Draws {
    /// Draws the profile of a candidate, by six draws.
    #[tactic(auto, unfolding(crate::specs::Bundle::profile_at, crate::specs::Draws::state_after))]
    pub(crate) fn profile(&mut self) -> Profile
        ensures profile { result ≡ profile_at self.old.state }
        ensures first { result.first < 100 }
        ensures stride { result.stride ≤ 9 }
        ensures state { self.new.state ≡ state_after 6 self.old.state }
    {
        let category = category_of(self.draw(20));
        let women = self.draw(2) == 0;
        let disabled = self.draw(20) == 0;
        let relaxed = self.draw(10) == 0;
        let first = self.draw(100);
        let stride = stride_of(self.draw(4));
        Profile {
            category,
            women,
            disabled,
            relaxed: category != Category::Gen && relaxed,
            first,
            stride,
        }
    }
}

/// The category of a number below 20.
fn category_of(number: u32) -> Category
    ensures { result ≡ category_of number }
{
    match number {
        0..=7 => Category::Gen,
        8..=9 => Category::Ews,
        10..=15 => Category::Obc,
        16..=18 => Category::Sc,
        _ => Category::St,
    }
}

/// How far a choice is from the one before, by a number below 4.
fn stride_of(number: u32) -> u32
    ensures stride { result ≡ stride_of number }
    ensures bound { result ≤ 9 }
{
    match number {
        0 => 1,
        1 => 3,
        2 => 7,
        _ => 9,
    }
}
