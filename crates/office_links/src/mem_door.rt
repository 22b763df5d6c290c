// A door in memory, which gives the links that it was made of. They are visible.
ghost use Rattle.std.specs.Prelude.{◌≡◌, ◌<◌, ◌≤◌, ◌+◌, ◌↔◌, [], ◌∷◌, ◌++◌, ℕ, List, Option, length, IfOk, OnOk, OnErr, IfSome, IfNone, IsErr, Some, Contains, vec_capacity};
ghost use Rattle.office_base.specs.Outside.{Fails};
ghost use Rattle.office_links.specs.Memory.{IsDoorAccept, fresh_door, visits};
ghost use Rattle.office_links.specs.Visits.{GivesFirst, TakesBack};

use crate::{Door, MemLink};
use office_base::{Failed, OutOfMemory, fails_at};
use std::alloc::Global;
use std::marker::Model;

/// Gives links in memory one after another, in their order.
/// The room for those that come back is allocated when it is made.
#[derive(Drop)]
pub struct MemDoor {
    coming: Vec<MemLink>,
    returned: Vec<MemLink>,
    room: usize,
    calls: u64,
    fail_at: Vec<u32>,
    faults: u64,
}

impl Model for MemDoor {
    ghost use Rattle.std.specs.Prelude.{◌≤◌, ◌+◌, ◌-◌, length, vec_capacity};
    ghost use Rattle.office_links.specs.Memory.{DoorMemory};

    ghost Value = { DoorMemory };

    ghost view = { λ a. record { coming = a.coming.items; returned = a.returned.items; out = a.room - (length a.returned.items + length a.coming.items); calls = a.calls; fail_at = a.fail_at.items; faults = a.faults } };

    ghost invariant = { λ a. (length a.returned.items + length a.coming.items ≤ a.room) × (a.room ≤ vec_capacity a.returned) };
}

impl MemDoor {
    /// Makes a door that gives these links. The calls of `accept` with the numbers in `fail_at`, from 1, fail.
    pub fn new(alloc: Global, links: Vec<MemLink>, fail_at: &[u32]) -> Result<MemDoor, OutOfMemory>
        ensures { IfOk result (λ door. door ≡ fresh_door links.items fail_at.now) }
    {
        let room = links.len();
        Ok(MemDoor {
            coming: links,
            returned: Vec::with_capacity(alloc, room)?,
            room,
            calls: 0,
            fail_at: Vec::from_slice(alloc, fail_at)?,
            faults: 0,
        })
    }

    /// Returns the links given back, in the order in which they came back.
    pub fn returned(&self) -> &[MemLink]
        ensures { result.now ≡ self.now.returned }
    {
        self.returned.as_slice()
    }
}

impl Door for MemDoor {
    ghost use Rattle.std.specs.Prelude.{Some, length, refl};
    ghost use Rattle.office_links.specs.Memory.{visits};

    type Conn = MemLink;

    ghost to_come = { λ door. length door.coming };

    ghost out = { λ door. door.out };

    ghost told = { λ door. Some (visits door) };

    ghost faults = { λ door. door.faults };

    ghost told_number = { λ door. refl };

    #[tactic(auto, using(crate::proofs::Taking::first_is))]
    fn accept(&mut self) -> Result<Option<MemLink>, Failed>
        ensures none { IfOk result (λ r.
            IfNone r ((length self.old.coming ≡ 0) × (length self.new.coming ≡ 0))) }
        ensures none_same { IfOk result (λ r. IfNone r ((self.new.out ≡ self.old.out)
            × (Some (visits self.new) ≡ Some (visits self.old)))) }
        ensures some { IfOk result (λ r.
            IfSome r (λ conn. length self.old.coming ≡ length self.new.coming + 1)) }
        ensures gives { IfOk result (λ r. IfSome r (λ conn. (self.new.out ≡ self.old.out + 1)
            × GivesFirst (Some (visits self.old)) conn (Some (visits self.new)))) }
        ensures kept { OnErr result ((length self.new.coming ≡ length self.old.coming)
            × (self.new.out ≡ self.old.out) × (Some (visits self.new) ≡ Some (visits self.old))) }
        ensures blamed { Fails (IsErr result) self.old.faults self.new.faults }
        ensures memory { IsDoorAccept self.old self.new result }
    {
        self.calls = self.calls.saturating_add(1);
        if fails_at(&self.fail_at, self.calls) {
            self.faults = self.faults.saturating_add(1);
            return Err(Failed);
        }
        if self.coming.is_empty() {
            return Ok(None);
        }
        Ok(Some(self.coming.remove(0)))
    }

    fn give_back(&mut self, conn: MemLink)
        requires { 1 ≤ self.old.out }
        ensures numbers { (self.old.out ≡ self.new.out + 1)
            × (length self.new.coming ≡ length self.old.coming) }
        ensures told { TakesBack (Some (visits self.old)) conn (Some (visits self.new)) }
        ensures count { self.new.faults ≡ self.old.faults }
        ensures rest { self.new
            ≡ record self.old { out = self.new.out; returned = self.old.returned ++ conn ∷ [] } }
    {
        self.returned.push_reserved(conn);
    }
}
