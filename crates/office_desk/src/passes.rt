// Passes are split and joined.
ghost use Rattle.std.specs.Prelude.{◌≡◌, ◌+◌, ◌-◌, ◌^◌, ◌≤◌, [], ◌++◌, IfOk, IsOk, IsTrue, ◌↔◌};
ghost use Rattle.office_desk.specs.declared.view.Stage.TheVariants.{Idle};
ghost use Rattle.office_desk.specs.Told.{IsSettled};
ghost use Rattle.office_desk.specs.Turning.{left_part, right_part, both_of};
ghost use Rattle.office_desk.specs.Words.{belongs, shares_of, left_of, tickets_of, seen_of, own_of, found_of, count_of};
ghost use Rattle.office_desk.specs.Joined.{IsSplitOff, IsUnion, united};

use crate::handles::{Desk, Pass};
use crate::{Keeps, Part, Portion, Settle, Union, View};
use atomic_table::Seat;
use office_base::OutOfMemory;
use std::marker::Brand;

/// All shares of a desk.
const WHOLE: u64 = 1 << 30;

// The seat gives one share and these turns away.
fn cut<V: Keeps, P: Portion>(
    desk: &Desk<V>,
    seat: &mut Seat<Option<V>, View<V>>,
    turns: u64,
) -> Seat<Option<V>, View<V>>
    requires table { seat.old.table_id ≡ desk.now.table.shared.table_id }
    requires picked { turns ≡ P.turns }
    requires idle { seat.old.me.0.stage ≡ Idle }
    requires shares { 2 ≤ seat.old.me.0.shares }
    requires left { turns ≤ seat.old.me.0.left }
    ensures table { (seat.new.table_id ≡ seat.old.table_id)
        × (result.table_id ≡ seat.old.table_id) }
    ensures kept { seat.new.me ≡ (left_part turns seat.old.me.0, seat.old.me.1) }
    ensures given { result.me ≡ (right_part turns seat.old.me.0, []) }
{
    desk.table.shared.split_seat::<Part<P>>(seat)
}

impl<V: Keeps> Pass<V> {
    // The pass of all shares and turns.
    pub(crate) fn first(seat: Seat<Option<V>, View<V>>) -> Pass<V>
        requires shares { (seat.me.0.shares ≡ 2 ^ 30) × (seat.me.0.left ≡ 2 ^ 40) }
        requires idle { (seat.me.0.stage ≡ Idle) × (seat.me.1 ≡ []) }
        ensures { result.seat ≡ seat }
    {
        Pass {
            seat,
            shares: WHOLE,
            left: 1 << 40,
            round: 0,
        }
    }

    pub(crate) fn into_seat(self) -> Seat<Option<V>, View<V>>
        ensures { result ≡ self.seat }
    {
        let Pass {
            seat,
            shares: _,
            left: _,
            round: _,
        } = self;
        seat
    }

    /// Returns how many turns are left.
    pub fn left(&self) -> u64
        ensures { result ≡ left_of self.now }
    {
        self.left
    }

    /// Returns whether this is the only pass of the desk.
    pub fn is_whole(&self) -> bool
        ensures { IsTrue result ↔ (shares_of self.now ≡ 2 ^ 30) }
    {
        self.shares == WHOLE
    }

    /// Gives one share and these turns to a new pass, which has seen what this one has. Never fails:
    /// it allocates nothing.
    pub fn split(&mut self, desk: &Desk<V>, turns: u64) -> Result<Pass<V>, OutOfMemory>
        requires desk { belongs desk.now self.old }
        requires shares { 2 ≤ shares_of self.old }
        requires turns { turns ≤ left_of self.old }
        ensures made { IsOk result }
        ensures split { IfOk result (λ pass. belongs desk.now self.new
            × belongs desk.now pass × IsSplitOff turns self.old self.new pass) }
    {
        let seat = cut::<V, Brand>(desk, &mut self.seat, turns);
        self.shares -= 1;
        self.left -= turns;
        Ok(Pass {
            seat,
            shares: 1,
            left: turns,
            round: self.round,
        })
    }

    /// Takes in another pass of the same desk. It allocates nothing.
    pub fn join(&mut self, desk: &Desk<V>, other: Pass<V>)
        requires desk { belongs desk.now self.old }
        requires other { belongs desk.now other }
        ensures desk { belongs desk.now self.new }
        ensures union { IsUnion self.old other self.new }
    {
        let Pass {
            seat,
            shares,
            left,
            round: _,
        } = other;
        unite(desk, &mut self.seat, seat);
        self.shares += shares;
        self.left += left;
    }
}

// Makes one of two seats, and finds how the two are related.
fn unite<V: Keeps>(
    desk: &Desk<V>,
    seat: &mut Seat<Option<V>, View<V>>,
    other: Seat<Option<V>, View<V>>,
)
    requires table { (seat.old.table_id ≡ desk.now.table.shared.table_id)
        × (other.table_id ≡ desk.now.table.shared.table_id) }
    requires idle { (seat.old.me.0.stage ≡ Idle) × (other.me.0.stage ≡ Idle) × (other.me.1 ≡ []) }
    requires shares { 1 ≤ seat.old.me.0.shares }
    ensures table { seat.new.table_id ≡ seat.old.table_id }
    ensures view { seat.new.me ≡ (united seat.old.me.0 other.me.0, seat.old.me.1) }
    ensures settled { IsSettled V.number (both_of seat.old.me.0 other.me.0) seat.old.me.0.seen
        other.me.0.seen seat.old.me.0.tickets other.me.0.tickets }
{
    desk.table.shared.join_seat::<Union>(seat, other);
    desk.table.shared.load::<Settle>(seat, 0);
}
