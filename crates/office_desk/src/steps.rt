// The steps on the words, and what each tells.
ghost use Rattle.office_desk.specs.Told.{Draws, Looks, Advances, Settles};

use crate::keeps::Keeps;
use crate::view::View;
use atomic_table::Play;

/// A ticket is drawn: one is added to the next ticket.
pub struct Draw;

impl<V: Keeps> Play<Option<V>, View<V>> for Draw {
    ghost then = { Draws };
}

/// The ticket that is served is read. Where it is the pass's own, the value goes out to it.
pub struct Look;

impl<V: Keeps> Play<Option<V>, View<V>> for Look {
    ghost then = { Looks V.basis V.entries V.number V.count V.kept };
}

/// The value comes home, and the next ticket is served.
pub struct Advance;

impl<V: Keeps> Play<Option<V>, View<V>> for Advance {
    ghost then = { Advances V.entries V.count V.kept };
}

/// A pass that was joined learns how its two parts stand to one another.
pub struct Settle;

impl<V: Keeps> Play<Option<V>, View<V>> for Settle {
    ghost then = { Settles V.number };
}
