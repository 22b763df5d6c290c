// What a pass knows, and the rule of the table.
use crate::Keeps;
use atomic_table::TableRule;
use std::collections::LinkedList;
use std::snapshot::Snapshot;

/// What a pass is about.
pub enum Stage<I> {
    /// It has no open ticket.
    Idle,
    /// It waits until this ticket is served.
    Waits(u64),
    /// Its ticket is served: the ticket, and the list, the count and the number of kept entries of the value that went
    /// out to it.
    Holds(u64, LinkedList<I>, u64, u64),
    /// It was joined and not settled yet: the list that was seen and the tickets, of the one and of the other.
    Joined(LinkedList<I>, LinkedList<u64>, LinkedList<I>, LinkedList<u64>),
}

/// What a pass knows. No value of it is made.
pub struct View<V: Keeps> {
    /// The value that the desk began with, or nothing in a view that is spent.
    pub about: Option<Snapshot<V>>,
    /// Its shares. A view without any is spent.
    pub shares: u64,
    /// How many turns it may still take.
    pub left: u64,
    /// The numbers of its turns, in their order.
    pub tickets: LinkedList<u64>,
    /// The entries that it has seen.
    pub seen: LinkedList<V::Item>,
    /// The value's count before the last turn that it knows of.
    pub found: u64,
    /// The value's count after that turn.
    pub count: u64,
    /// How many of the value's entries are kept after that turn.
    pub kept: u64,
    pub stage: Stage<V::Item>,
}

/// The rule of the desk's table.
pub struct Turns;

impl<V: Keeps> TableRule<Option<V>, View<V>, Snapshot<V>> for Turns {
    ghost use Rattle.office_desk.specs.Turning.{InTurn, whole_view};

    ghost holds = { InTurn V.basis V.entries V.number V.count V.kept };

    ghost first = { whole_view V.entries V.count V.kept };
}
