// A turn at a desk.
ghost use Rattle.std.specs.Prelude.{◌≡◌, ℕ, ◌+◌, ◌<◌, ◌≤◌, ◌^◌, [], ◌∷◌, Some, map};
ghost use Rattle.office_base.specs.Numbered.{last_of_numbers};
ghost use Rattle.office_desk.specs.declared.view.Stage.TheVariants.{Idle, Waits};
ghost use Rattle.office_desk.specs.Own.{AppendsAtMost};
ghost use Rattle.office_desk.specs.Told.{IsTaken, holding, after_turn};
ghost use Rattle.office_desk.specs.Words.{belongs, origin_of, left_of};
ghost use Rattle.office_desk.specs.Turned.{Leaves, MayReturn, IsTurn};

use crate::handles::{Desk, Pass};
use crate::{Advance, Draw, Keeps, Look, View};
use atomic_table::Seat;
use std::sync::atomic::{AtomicU64, Ordering};
use std::sync::{Mutex, MutexGuard, Wait};
use std::thread;

/// How often a caller yields before it sleeps.
const YIELDS: u32 = 64;

/// How often the first late caller of a round yields at most to others.
const LATE_YIELDS: u32 = 4096;

// Waits at the gate: a few times by yielding, since a turn is short, and then by sleeping.
fn enter<'a, W: Wait, V: Keeps>(rt: &W, desk: &'a Desk<V>) -> MutexGuard<'a, ()> {
    for _ in 0..YIELDS {
        if let Some(gate) = desk.gate.try_lock() {
            return gate;
        }
        thread::yield_now();
    }
    desk.coming.fetch_add(1, Ordering::SeqCst);
    let gate = desk.gate.lock(rt);
    desk.coming.fetch_sub(1, Ordering::SeqCst);
    gate
}

// Yields while somebody sleeps at the gate, or has not had the late turn of the round before, but not for ever.
fn let_in<V: Keeps>(desk: &Desk<V>, before: &AtomicU64) {
    for _ in 0..LATE_YIELDS {
        if desk.coming.load(Ordering::SeqCst) == 0 && before.load(Ordering::SeqCst) == 0 {
            return;
        }
        thread::yield_now();
    }
}

fn draw<V: Keeps>(desk: &Desk<V>, seat: &mut Seat<Option<V>, View<V>>) -> u64
    requires table { seat.old.table_id ≡ desk.now.table.shared.table_id }
    requires idle { seat.old.me.0.stage ≡ Idle }
    requires turns { 1 ≤ seat.old.me.0.left }
    ensures table { seat.new.table_id ≡ seat.old.table_id }
    ensures drawn { seat.new.me ≡ (record seat.old.me.0 { stage = Waits result }, seat.old.me.1) }
{
    desk.table.shared.fetch_add::<Draw>(seat, 0, 1)
}

// Waits until the ticket is served, which is at once for the caller who has the gate.
// The slot is then out with the seat, and has the value.
fn await_turn<W: Wait, V: Keeps>(
    rt: &W,
    desk: &Desk<V>,
    seat: &mut Seat<Option<V>, View<V>>,
    number: u64,
)
    requires table { seat.old.table_id ≡ desk.now.table.shared.table_id }
    requires waits { (seat.old.me.0.stage ≡ Waits number) × (seat.old.me.1 ≡ []) }
    ensures table { seat.new.table_id ≡ seat.old.table_id }
    ensures held { (x : V) × (seat.new.me
        ≡ (holding V.entries V.count V.kept seat.old.me.0 number x, (0, Some x) ∷ []))
        × IsTaken V.basis V.entries V.number V.count V.kept number seat.old.me.0 x }
{
    let shared = &desk.table.shared;
    for _ in rt.forever() {
        let serving = shared.load::<Look>(seat, 1);
        if serving == number {
            return;
        }
        thread::yield_now();
    }
    unreachable!()
}

// The value in the slot goes home, and the next ticket is served.
fn hand_back<V: Keeps>(desk: &Desk<V>, seat: &mut Seat<Option<V>, View<V>>, number: u64)
    requires table { seat.old.table_id ≡ desk.now.table.shared.table_id }
    requires small { number < 2 ^ 41 }
    requires held { (y : V) × (seat.old.me.1 ≡ (0, Some y) ∷ [])
        × MayReturn V.basis V.entries V.number V.count V.kept number seat.old.me.0 y }
    ensures table { seat.new.table_id ≡ seat.old.table_id }
    ensures view { (y : V) × (seat.old.me.1 ≡ (0, Some y) ∷ []) × (seat.new.me
        ≡ (after_turn V.entries V.count V.kept seat.old.me.0 y seat.old.me.0.stage, [])) }
{
    desk.table.shared.store::<Advance>(seat, 1, number + 1);
}

impl<V: Keeps> Desk<V> {
    /// Waits for a turn at the gate, calls the job on the value with the number of the turn,
    /// and returns what the job returns.
    /// The desk allocates nothing.
    pub fn turn<W: Wait, R, J: FnOnce(&mut V, u64) -> R>(
        &self,
        rt: &W,
        pass: &mut Pass<V>,
        job: J,
    ) -> R
        requires desk { belongs self.now pass.old }
        requires left { 1 ≤ left_of pass.old }
        requires job { (v : V) (n : ℕ) → n < 2 ^ 41 → V.basis v ≡ V.basis (origin_of self.now) → last_of_numbers (map V.number (V.entries v)) < n → Leaves J.FnOnce job v n (λ w. (V.basis w ≡ V.basis v) × AppendsAtMost V.number n (V.entries v) (V.entries w) × (V.count v ≤ V.count w) × (V.kept v ≤ V.kept w)) }
        ensures desk { belongs self.now pass.new }
        ensures turned { IsTurn J.FnOnce job self.now pass.old pass.new result }
    {
        let _gate = enter(rt, self);
        self.serve(rt, pass, job)
    }

    // Takes a turn. Only the caller who has the gate calls this, so that nobody else's ticket is served before.
    fn serve<W: Wait, R, J: FnOnce(&mut V, u64) -> R>(
        &self,
        rt: &W,
        pass: &mut Pass<V>,
        job: J,
    ) -> R
        requires desk { belongs self.now pass.old }
        requires left { 1 ≤ left_of pass.old }
        requires job { (v : V) (n : ℕ) → n < 2 ^ 41 → V.basis v ≡ V.basis (origin_of self.now) → last_of_numbers (map V.number (V.entries v)) < n → Leaves J.FnOnce job v n (λ w. (V.basis w ≡ V.basis v) × AppendsAtMost V.number n (V.entries v) (V.entries w) × (V.count v ≤ V.count w) × (V.kept v ≤ V.kept w)) }
        ensures desk { belongs self.now pass.new }
        ensures turned { IsTurn J.FnOnce job self.now pass.old pass.new result }
    {
        let number = draw(self, &mut pass.seat);
        await_turn(rt, self, &mut pass.seat, number);
        let slot = pass.seat.slot_mut(&self.table.shared, 0);
        let Some(value) = slot else { unreachable!() };
        let answer = job(value, number);
        hand_back(self, &mut pass.seat, number);
        pass.left -= 1;
        pass.round = self.rounds.load(Ordering::SeqCst);
        answer
    }

    // How many callers wait for the late turn of rounds like this one, even or odd.
    fn waiting(&self, round: u64) -> &AtomicU64 {
        if round % 2 == 0 {
            &self.of_even
        } else {
            &self.of_odd
        }
    }

    // What callers of such rounds take first.
    fn late(&self, round: u64) -> &Mutex<()> {
        if round % 2 == 0 {
            &self.even
        } else {
            &self.odd
        }
    }

    /// Takes a turn as `turn` does, after all who wait at the gate already.
    /// Of the callers whose last turn was in one round, one is the first: it lets the others of the round before go, and then
    /// begins the next round. The others of its own round wait for it, and take their turns after it.
    /// So a job that serves all who came before it has work to do once for many of them.
    pub fn late_turn<W: Wait, R, J: FnOnce(&mut V, u64) -> R>(
        &self,
        rt: &W,
        pass: &mut Pass<V>,
        job: J,
    ) -> R
        requires desk { belongs self.now pass.old }
        requires left { 1 ≤ left_of pass.old }
        requires job { (v : V) (n : ℕ) → n < 2 ^ 41 → V.basis v ≡ V.basis (origin_of self.now) → last_of_numbers (map V.number (V.entries v)) < n → Leaves J.FnOnce job v n (λ w. (V.basis w ≡ V.basis v) × AppendsAtMost V.number n (V.entries v) (V.entries w) × (V.count v ≤ V.count w) × (V.kept v ≤ V.kept w)) }
        ensures desk { belongs self.now pass.new }
        ensures turned { IsTurn J.FnOnce job self.now pass.old pass.new result }
    {
        let round = pass.round;
        let waiting = self.waiting(round);
        waiting.fetch_add(1, Ordering::SeqCst);
        let answer = self.lead_or_follow(rt, pass, round, job);
        waiting.fetch_sub(1, Ordering::SeqCst);
        answer
    }

    // Takes the first late turn of this round, or waits for who does and takes a later one.
    fn lead_or_follow<W: Wait, R, J: FnOnce(&mut V, u64) -> R>(
        &self,
        rt: &W,
        pass: &mut Pass<V>,
        round: u64,
        job: J,
    ) -> R
        requires desk { belongs self.now pass.old }
        requires left { 1 ≤ left_of pass.old }
        requires job { (v : V) (n : ℕ) → n < 2 ^ 41 → V.basis v ≡ V.basis (origin_of self.now) → last_of_numbers (map V.number (V.entries v)) < n → Leaves J.FnOnce job v n (λ w. (V.basis w ≡ V.basis v) × AppendsAtMost V.number n (V.entries v) (V.entries w) × (V.count v ≤ V.count w) × (V.kept v ≤ V.kept w)) }
        ensures desk { belongs self.now pass.new }
        ensures turned { IsTurn J.FnOnce job self.now pass.old pass.new result }
    {
        let late = self.late(round).lock(rt);
        if self.rounds.load(Ordering::SeqCst) == round {
            let_in(self, self.waiting(round.wrapping_add(1)));
            let _gate = enter(rt, self);
            self.rounds.store(round.wrapping_add(1), Ordering::SeqCst);
            return self.serve(rt, pass, job);
        }
        drop(late);
        self.turn(rt, pass, job)
    }
}
