// How a view is cut in two, and how two are made one.
ghost use Rattle.std.specs.Prelude.{ℕ};
ghost use Rattle.office_desk.specs.Turning.{left_part, right_part, both_of, spent_view};

use crate::keeps::Keeps;
use crate::view::View;
use atomic_table::{Join, Split};
use std::marker::{Brand, PhantomData};

/// How many turns go to the new pass. Each split picks it.
pub trait Portion {
    ghost turns: { ℕ };
}

impl Portion for Brand {
    ghost turns = { 0 };
}

/// One share and these turns go to a new pass, which has seen as much.
pub struct Part<P: Portion> {
    of: PhantomData<P>,
}

impl<V: Keeps, P: Portion> Split<View<V>> for Part<P> {
    ghost left = { left_part P.turns };

    ghost right = { right_part P.turns };
}

/// Shares, turns and tickets of both, the longer list, the larger count and the larger number of kept entries.
pub struct Union;

impl<V: Keeps> Join<View<V>> for Union {
    ghost both = { both_of };

    ghost spent = { spent_view };
}
