// A desk begins and ends.
ghost use Rattle.std.specs.Prelude.{◌≡◌, ◌+◌, ◌<◌, ◌≤◌, ◌^◌, ◌++◌, [], IfOk, IfErr, map};
ghost use Rattle.office_base.specs.Numbered.{last_of_numbers};
ghost use Rattle.office_desk.specs.Words.{belongs, origin_of, shares_of, left_of, tickets_of, seen_of, own_of, found_of, count_of, kept_of};

use crate::Keeps;
use crate::handles::{Desk, Pass};
use atomic_table::{Refused, Table};
use office_base::OutOfMemory;
use std::alloc::Global;
use std::snapshot::Snapshot;
use std::sync::Mutex;
use std::sync::atomic::AtomicU64;

impl<V: Keeps> Desk<V> {
    /// Makes a desk for this value, and its first pass, with 2^30 shares and 2^40 turns.
    /// Tickets follow the value's last number.
    /// If memory runs out, it returns the value.
    pub fn begin(alloc: Global, value: V) -> Result<(Desk<V>, Pass<V>), (V, OutOfMemory)>
        requires { last_of_numbers (map V.number (V.entries value)) < 2 ^ 40 }
        ensures desk { IfOk result (λ made. (origin_of made.0 ≡ value) × belongs made.0 made.1) }
        ensures pass { IfOk result (λ made. (shares_of made.1 ≡ 2 ^ 30) × (left_of made.1 ≡ 2 ^ 40)
            × (tickets_of made.1 ≡ []) × (seen_of made.1 ≡ V.entries value)
            × (found_of made.1 ≡ V.count value) × (count_of made.1 ≡ V.count value)) }
        ensures kept { IfOk result (λ made. kept_of made.1 ≡ V.kept value) }
        ensures refused { IfErr result (λ refused. refused.0 ≡ value) }
    {
        let mut slots = match Vec::with_capacity(alloc, 1) {
            Ok(slots) => slots,
            Err(_) => return Err((value, OutOfMemory)),
        };
        let about = Snapshot::of(&value);
        let first = value.last_number() + 1;
        slots.push_reserved(Some(value));
        match Table::new(alloc, &[first, first], slots, &about) {
            Ok((table, seat)) => {
                let desk = Desk {
                    gate: Mutex::new(()),
                    coming: AtomicU64::new(0),
                    rounds: AtomicU64::new(0),
                    even: Mutex::new(()),
                    of_even: AtomicU64::new(0),
                    odd: Mutex::new(()),
                    of_odd: AtomicU64::new(0),
                    table,
                };
                Ok((desk, Pass::first(seat)))
            }
            Err(Refused { mut slots }) => {
                let value = slots.pop().unwrap().unwrap();
                slots.destroy_empty();
                Err((value, OutOfMemory))
            }
        }
    }

    /// Ends the desk with its whole pass, and returns the value. It allocates nothing.
    pub fn close(self, pass: Pass<V>) -> V
        requires desk { belongs self pass }
        requires whole { shares_of pass ≡ 2 ^ 30 }
        ensures basis { V.basis result ≡ V.basis (origin_of self) }
        ensures seen { V.entries result ≡ seen_of pass }
        ensures own { V.entries result ≡ V.entries (origin_of self) ++ own_of pass }
        ensures count { count_of pass ≤ V.count result }
        ensures kept { kept_of pass ≤ V.kept result }
    {
        let Desk {
            gate: _,
            coming: _,
            rounds: _,
            even: _,
            of_even: _,
            odd: _,
            of_odd: _,
            table,
        } = self;
        let mut closed = table.close_with(pass.into_seat());
        let value = closed.take(0).unwrap();
        closed.free();
        value
    }
}
