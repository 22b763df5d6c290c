// The workers behind the doors.
ghost use Rattle.std.specs.Prelude.{◌≡◌, ◌≤◌, ◌+◌, ◌*◌, ◌<◌, ◌^◌, ℕ, length};
ghost use Rattle.office_base.specs.Limits.{most_connections};
ghost use Rattle.office_http.specs.Knowing.{known_of};
ghost use Rattle.door_crews.specs.Served.{telling};
ghost use Rattle.door_crews.specs.Workers.{IsHired, IsTakenIn, HasWorked};
ghost use Rattle.office_http.specs.Asking.{AnswersAt, UnanswersAt};
ghost use Rattle.office_http.specs.Keeping.{MayWait};
ghost use Rattle.office_desk.specs.Words.{belongs, left_of, origin_of, shares_of};
ghost use Rattle.office_http.specs.Hands.{worker_of, most_turns};

use crate::{DeskCounter, DeskOffice, TablesBefore};
use door_crews::Crew;
use http_sessions::{Buffers, Gate, serve_door};
use keeper_mem::Keeper;
use office_desk::{Desk, Keeps, Pass};
use office_links::Door;
use std::alloc::Global;
use std::sync::Wait;

/// The turns of a worker: two for each of a hundred messages of a hundred thousand connections.
const TURNS: u64 = 20_000_000;

/// What all workers share.
#[derive(Drop)]
pub struct Shared<'a, V: Keeps, G> {
    pub alloc: Global,
    pub desk: &'a Desk<V>,
    pub gate: &'a G,
}

/// A worker: a pass to the desk, and whether a door failed that was served by it or by a worker that it took in.
#[derive(Drop)]
pub struct DeskWorker<V: Keeps> {
    pub pass: Pass<V>,
    pub failed: bool,
}

impl<K: Keeper, B: TablesBefore, G: Gate, D: Door> Crew<Shared<'_, DeskOffice<K, B>, G>, D, Buffers>
    for DeskWorker<DeskOffice<K, B>> {
    ghost may_be_served = { λ door. D.to_come door ≤ most_connections };

    ghost may_hire = { λ shop n hand. belongs shop.desk.now hand.pass × (n + 1 ≤ shares_of hand.pass) × (n * most_turns ≤ left_of hand.pass) };

    ghost may_work = { λ shop hand. belongs shop.desk.now hand.pass × (1 ≤ shares_of hand.pass) × (most_turns ≤ left_of hand.pass) };

    ghost after_hire = { λ shop p q w. IsHired (worker_of p) (worker_of q) (worker_of w) };

    ghost after_work = { λ shop number door door' w w'. HasWorked (AnswersAt (origin_of shop.desk.now).office.season)
        (UnanswersAt (origin_of shop.desk.now).office.season (K.seen (origin_of shop.desk.now).office.keeper).holds_room (MayWait K.seen))
        (telling D.Door D.Conn.Link)
        number door door' (worker_of w) (worker_of w') };

    ghost after_return = { λ shop m w p. IsTakenIn (worker_of m) (worker_of w) (worker_of p) };

    fn hire(&mut self, shop: &Shared<'_, DeskOffice<K, B>, G>) -> Self {
        let Ok(pass) = self.pass.split(shop.desk, TURNS) else {
            unreachable!()
        };
        DeskWorker {
            pass,
            failed: false,
        }
    }

    fn work<R: Wait>(
        &mut self,
        rt: &R,
        shop: &Shared<'_, DeskOffice<K, B>, G>,
        number: u32,
        door: &mut D,
        buffers: &mut Buffers,
    ) {
        let mut counter = DeskCounter {
            rt,
            desk: shop.desk,
            pass: &mut self.pass,
        };
        self.failed = serve_door(shop.alloc, &mut counter, door, buffers, shop.gate, number);
    }

    fn take_in(&mut self, shop: &Shared<'_, DeskOffice<K, B>, G>, other: Self) {
        let DeskWorker { pass, failed } = other;
        self.pass.join(shop.desk, pass);
        self.failed = self.failed || failed;
    }
}
