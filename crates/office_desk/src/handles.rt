// A desk, and the passes to it.
ghost use Rattle.std.specs.Prelude.{◌≡◌, ◌≤◌, ◌^◌, []};
ghost use Rattle.office_desk.specs.declared.view.Stage.TheVariants.{Idle};

use crate::{Keeps, Turns, View};
use atomic_table::{Seat, Table};
use std::alloc::Global;
use std::snapshot::Snapshot;
use std::sync::Mutex;
use std::sync::atomic::AtomicU64;

/// A place at which one value is used in turns.
pub struct Desk<V: Keeps> {
    // Callers wait here. The caller who has it draws a ticket, which is served at once.
    // A caller that drew a ticket and then slept would hold up all others.
    pub(crate) gate: Mutex<()>,
    // How many callers sleep here. No clause speaks of this or of the numbers below: by them a late turn lets others go first.
    pub(crate) coming: AtomicU64,
    // How many late turns have begun that were the first of their round.
    pub(crate) rounds: AtomicU64,
    // Who takes a late turn of an even round has this first, so that of several one waits at the gate; and how many do so.
    pub(crate) even: Mutex<()>,
    pub(crate) of_even: AtomicU64,
    // The same for odd rounds.
    pub(crate) odd: Mutex<()>,
    pub(crate) of_odd: AtomicU64,
    pub(crate) table: Table<Option<V>, View<V>, Snapshot<V>, Turns, Global>,
    ghost sized: { (table.shared.table_id.words ≡ 2) × (table.shared.table_id.slots ≡ 1) },
}

/// The right to some turns at a desk, and what its holder knows of the history.
/// A pass that is dropped keeps its shares for good.
#[derive(Drop)]
pub struct Pass<V: Keeps> {
    pub(crate) seat: Seat<Option<V>, View<V>>,
    pub(crate) shares: u64,
    pub(crate) left: u64,
    // In which round of late turns its last turn was.
    pub(crate) round: u64,
    ghost idle: { seat.me.0.stage ≡ Idle },
    ghost empty: { seat.me.1 ≡ [] },
    ghost shared: { (seat.me.0.shares ≡ shares) × (1 ≤ shares) × (shares ≤ 2 ^ 30) },
    ghost turns: { (seat.me.0.left ≡ left) × (left ≤ 2 ^ 40) },
}
