// The connections of a door, one after another.
ghost use Rattle.std.specs.Prelude.{◌≡◌, ◌+◌, ◌*◌, ◌≤◌, ℕ, true, false};
ghost use Rattle.office_base.specs.Outside.{Rose};
ghost use Rattle.http_sessions.specs.Limits.{most_messages};
ghost use Rattle.office_links.specs.Visits.{TakesBack};
ghost use Rattle.http_sessions.specs.Doors.{HasVisited, IsHeld};

use crate::conversation::{Buffers, session};
use crate::counter::Counter;
use crate::gate::Gate;
use office_links::{Door, Link};
use std::alloc::Global;

/// Holds a session on a connection of the door, and gives it back.
fn serve_one<C: Counter, D: Door, G: Gate>(
    alloc: Global,
    counter: &mut C,
    door: &mut D,
    conn: D::Conn,
    buffers: &mut Buffers,
    gate: &G,
    worker: u32,
)
    requires asks { most_messages ≤ C.asks_left counter.old }
    requires given { 1 ≤ D.out door.old }
    ensures held { (back : _) × IsHeld C.answers D.Conn.left D.Conn.written D.Conn.faults
        counter.old counter.new conn back × TakesBack (D.told door.old) back (D.told door.new) }
    ensures numbers { (D.out door.old ≡ D.out door.new + 1)
        × (D.to_come door.new ≡ D.to_come door.old) }
    ensures count { D.faults door.new ≡ D.faults door.old }
    ensures left { C.asks_left counter.old ≤ C.asks_left counter.new + most_messages }
    ensures same { C.lender counter.new ≡ C.lender counter.old }
{
    let mut conn = conn;
    session(alloc, counter, &mut conn, buffers, gate, worker);
    door.give_back(conn);
}

/// Takes the connections of a door one after another, holds a session on each, and gives it back.
/// It stops when the door has none or fails, and returns whether the door failed.
/// No connection stays out.
pub fn serve_door<C: Counter, D: Door, G: Gate>(
    alloc: Global,
    counter: &mut C,
    door: &mut D,
    buffers: &mut Buffers,
    gate: &G,
    worker: u32,
) -> bool
    requires { most_messages * D.to_come door.old ≤ C.asks_left counter.old }
    ensures visited { HasVisited C.answers D.Conn.left D.Conn.written D.Conn.faults
        counter.old counter.new (D.told door.old) (D.told door.new) }
    ensures done { result ≡ false → (D.to_come door.new ≡ 0)
        × (D.faults door.new ≡ D.faults door.old) }
    ensures failed { result ≡ true → Rose (D.faults door.old) (D.faults door.new) }
    ensures out { D.out door.new ≡ D.out door.old }
    ensures fewer { D.to_come door.new ≤ D.to_come door.old }
    ensures same { C.lender counter.new ≡ C.lender counter.old }
{
    'visits: loop {
        match door.accept() {
            Err(_) => return true,
            Ok(None) => return false,
            Ok(Some(conn)) => serve_one(alloc, counter, door, conn, buffers, gate, worker),
        }
    }
}
