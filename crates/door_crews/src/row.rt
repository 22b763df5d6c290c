// A crew, and its work on a row of doors.
ghost use Rattle.std.specs.Prelude.{◌≡◌, ℕ, ◌+◌, ◌*◌, ◌<◌, ◌^◌, length};
ghost use Rattle.std.specs.List.{AllByRecursion};
ghost use Rattle.std.specs.Thread.{IsSync, IsSend};
ghost use Rattle.door_crews.specs.Rows.{AllServed};

use std::sync::Wait;
use std::thread::{Threads, join_mut};

/// Serves doors of type `D`, each with its own buffers of type `B` and with what all workers share.
/// A worker can be split off, serve a door on a thread of its own, and be taken in again.
pub trait Crew<S, D, B> {
    /// The door may be served.
    ghost may_be_served: { D → Type 0 };

    /// So many workers can still be split off.
    ghost may_hire: { S → ℕ → Self → Type 0 };

    /// A new worker may serve.
    ghost may_work: { S → Self → Type 0 };

    /// The crew before a worker is split off, the crew after it, and the worker.
    ghost after_hire: { S → Self → Self → Self → Type 0 };

    /// The number of a worker, the door before and after, and the worker before and after.
    ghost after_work: { S → ℕ → D → D → Self → Self → Type 0 };

    /// The crew before a worker is taken in, the worker, and the crew after it.
    ghost after_return: { S → Self → Self → Self → Type 0 };

    /// Splits a worker off. It takes no memory.
    fn hire(&mut self, shared: &S) -> Self
        requires { (n : ℕ) × may_hire shared.now (n + 1) self.old }
        ensures may_hire { (n : ℕ) → may_hire shared.now (n + 1) self.old
            → may_hire shared.now n self.new }
        ensures may_work { may_work shared.now result }
        ensures after_hire { after_hire shared.now self.old self.new result };

    /// Serves one door to its end, as the worker with this number. It may wait.
    fn work<R: Wait>(&mut self, rt: &R, shared: &S, number: u32, door: &mut D, buffers: &mut B)
        requires may_be_served { may_be_served door.old }
        requires may_work { may_work shared.now self.old }
        ensures may_hire { may_hire shared.now 0 self.new }
        ensures after_work { after_work shared.now number door.old door.new self.old self.new };

    /// Takes a worker in again. It takes no memory.
    fn take_in(&mut self, shared: &S, other: Self)
        requires one { may_hire shared.now 0 self.old }
        requires other { may_hire shared.now 0 other }
        ensures may_hire { may_hire shared.now 0 self.new }
        ensures after_return { after_return shared.now self.old other self.new };
}

/// Has each door served by a worker of its own, with the buffers in the same place: the workers are numbered from `from` on in the order of the doors.
/// It returns when all have ended. Where no thread can be made, they work one after another.
#[cycle(row)]
pub fn work_all<S: Sync, D: Send, B: Send, P: Crew<S, D, B> + Send, R: Threads + Wait + Sync>(
    rt: &R,
    shared: &S,
    from: u32,
    crew: &mut P,
    doors: &mut [D],
    buffers: &mut [B],
)
    requires numbers { from + length doors.old < 2 ^ 32 }
    requires as_many { length buffers.old ≡ length doors.old }
    requires suit { AllByRecursion P.may_be_served doors.old }
    requires may_hire { P.may_hire shared.now (length doors.old) crew.old }
    ensures may_hire { P.may_hire shared.now 0 crew.new }
    ensures served { AllServed (P.after_hire shared.now) (P.after_work shared.now)
        (P.after_return shared.now) from doors.old doors.new crew.old crew.new }
{
    let Some((door, doors)) = doors.split_first_mut() else {
        return;
    };
    let Some((buffer, buffers)) = buffers.split_first_mut() else {
        unreachable!()
    };
    let mut worker = crew.hire(shared);
    both(
        rt,
        shared,
        from,
        door,
        buffer,
        &mut worker,
        crew,
        doors,
        buffers,
    );
    crew.take_in(shared, worker);
}

// Serves the first door next to all others, each with its worker.
// It is a function of its own, so that what the closures require is what it is given.
#[cycle(row)]
fn both<S: Sync, D: Send, B: Send, P: Crew<S, D, B> + Send, R: Threads + Wait + Sync>(
    rt: &R,
    shared: &S,
    from: u32,
    door: &mut D,
    buffer: &mut B,
    worker: &mut P,
    crew: &mut P,
    doors: &mut [D],
    buffers: &mut [B],
)
    requires numbers { from + 1 + length doors.old < 2 ^ 32 }
    requires as_many { length buffers.old ≡ length doors.old }
    requires one_may_be_served { P.may_be_served door.old }
    requires one { P.may_work shared.now worker.old }
    requires suit { AllByRecursion P.may_be_served doors.old }
    requires may_hire { P.may_hire shared.now (length doors.old) crew.old }
    ensures one_may_hire { P.may_hire shared.now 0 worker.new }
    ensures one { P.after_work shared.now from door.old door.new worker.old worker.new }
    ensures may_hire { P.may_hire shared.now 0 crew.new }
    ensures others { AllServed (P.after_hire shared.now) (P.after_work shared.now)
        (P.after_return shared.now) (from + 1) doors.old doors.new crew.old crew.new }
{
    let next = from + 1;
    let mut first = ||
        requires { P.may_be_served door.now × P.may_work shared.now worker.now }
        ensures { P.may_hire shared.entry.now 0 worker.exit.now × P.after_work shared.entry.now
            from door.entry.now door.exit.now worker.entry.now worker.exit.now }
    { worker.work(rt, shared, from, door, buffer) };
    let mut rest = ||
        requires { IsSync R.row × IsSync S.row × IsSend D.row × IsSend B.row × IsSend P.row × (next
            + length doors.now < 2 ^ 32) × (length buffers.now ≡ length doors.now) × AllByRecursion
            P.may_be_served doors.now × P.may_hire shared.now (length doors.now) crew.now }
        ensures { P.may_hire shared.entry.now 0 crew.exit.now × AllServed
            (P.after_hire shared.entry.now) (P.after_work shared.entry.now) (P.after_return
            shared.entry.now) next doors.entry.now doors.exit.now crew.entry.now crew.exit.now }
    { work_all(rt, shared, next, crew, doors, buffers) };
    join_mut(rt, &mut first, &mut rest);
}
