// The matching and its members.
ghost use Rattle.std.specs.Prelude.{◌≡◌, ◌≤◌, [], ◌∷◌, ◌++◌, ◌↔◌, length, sum, IsTrue, IfOk};
ghost use Rattle.office_base.specs.Lists.{AnyByRecursion};
ghost use Rattle.office_base.specs.Person.{IsList, IsTraitSet};
ghost use Rattle.office_base.specs.Placement.{IsHonoured};
ghost use Rattle.placements.specs.Ranks.{CanBePlaced, without};
ghost use Rattle.slot_matching.specs.Augmented.{IsAugmented};
ghost use Rattle.slot_matching.specs.Replaceable.{IsReplaceable};
ghost use Rattle.slot_matching.specs.Kept.{IsKept, MayJoin, with_member, without_member};
ghost use Rattle.office_base.specs.declared.person.Person.{Person};

use crate::members::{id_of, place_of, worst_within};
use crate::spare::{all_spare, give_spare, has_spare, least_full, take_spare};
use office_base::{CandId, ListId, OutOfMemory, Person, Protections, TraitSet};
use placements::positions;
use std::alloc::Global;
use std::marker::Model;

/// What came of one person.
#[derive(Clone, Copy, PartialEq, Eq)]
pub enum Augment {
    /// The person is a member now: one protection more is honoured.
    Raised,
    /// The members stay as they were: the person cannot be placed with all of them.
    Held {
        /// the worst in merit of the members in whose place the person can be placed with the others, if there is any
        worst: Option<CandId>,
    },
}

/// Persons who can all be placed on protected positions at once, kept as they come.
#[derive(Drop)]
pub struct Matching {
    protections: Protections,
    list: ListId,
    members: Vec<Person>,
    spare: [u16; 64],
}

impl Model for Matching {
    ghost use Rattle.std.specs.Prelude.{vec_capacity};
    ghost use Rattle.slot_matching.specs.Kept.{Kept, IsCounted};

    ghost Value = { Kept };

    ghost view = { λ a. record { protections = a.protections; list = a.list; members = a.members.items } };

    ghost invariant = { λ a. IsCounted (record { protections = a.protections; list = a.list; members = a.members.items }) a.spare (vec_capacity a.members) };
}

impl Matching {
    /// A matching without members. It takes the room for every member now, so that no later call takes memory.
    pub fn new(
        alloc: Global,
        protections: Protections,
        list: ListId,
    ) -> Result<Matching, OutOfMemory>
        requires few { sum protections.counts ≤ 65535 }
        requires list { IsList list }
        ensures { IfOk result (λ matching.
            matching ≡ record { protections = protections; list = list; members = [] }) }
    {
        let spare = all_spare(&protections);
        let room = positions(&protections, TraitSet(63));
        Ok(Matching {
            protections,
            list,
            members: Vec::with_capacity(alloc, room as usize)?,
            spare,
        })
    }

    /// Whether the members can all be placed with the person, so that `augment` would answer `Raised`. It takes no
    /// memory, looks at no member, and stops at the first set of traits that shows that they cannot.
    pub fn raises(&self, person: &Person) -> bool
        requires { MayJoin self.now person.now }
        ensures { IsTrue result
            ↔ CanBePlaced self.now.protections (with_member self.now person.now).members }
    {
        has_spare(&self.spare, person.traits)
    }

    /// Returns in whose place the person can be kept, if the members cannot all be placed with the person: in that of
    /// each member who holds no trait outside this set. `None` if they can, so that `augment` would answer `Raised`.
    /// Allocates nothing, and looks at no member.
    pub fn replaceable(&self, person: &Person) -> Option<TraitSet>
        requires { MayJoin self.now person.now }
        ensures { IsReplaceable self.now person.now result }
    {
        least_full(&self.spare, person.traits)
    }

    /// Returns the same for anybody who may join and holds just these traits, whoever that is.
    pub fn replaceable_with(&self, traits: TraitSet) -> Option<TraitSet>
        requires { IsTraitSet traits }
        ensures { (person : Person) → MayJoin self.now person → person.traits ≡ traits
            → IsReplaceable self.now person result }
    {
        least_full(&self.spare, traits)
    }

    /// Keeps the person too, if all members can then still be placed. A member on a position may be moved to another
    /// position; nobody leaves. Otherwise returns the worst member whom the person can replace. Allocates nothing.
    pub fn augment(&mut self, person: &Person) -> Augment
        requires { MayJoin self.old person.now }
        ensures done { IsAugmented self.old person.now result self.new }
        ensures kept { IsKept self.new }
    {
        if let Some(set) = least_full(&self.spare, person.traits) {
            let worst = id_of(worst_within(self.members.as_slice(), self.list, set));
            return Augment::Held { worst };
        }
        take_spare(&mut self.spare, person.traits);
        if self.members.push(*person).is_err() {
            unreachable!("the room was taken when the matching was made")
        }
        Augment::Raised
    }

    /// Keeps the person in the place of a member, where the person can be placed with the other members. It takes no
    /// memory.
    pub fn exchange(&mut self, out: CandId, person: &Person)
        requires may { MayJoin self.old person.now }
        requires member { AnyByRecursion (λ member. member.id ≡ out) self.old.members }
        requires placed { CanBePlaced self.old.protections
            (without out self.old.members ++ person.now ∷ []) }
        ensures done { self.new ≡ with_member (without_member self.old out) person.now }
        ensures kept { IsKept self.new }
    {
        let Some(at) = place_of(self.members.as_slice(), out) else {
            unreachable!("the one who leaves is a member")
        };
        let left = self.members.remove(at);
        give_spare(&mut self.spare, left.traits);
        take_spare(&mut self.spare, person.traits);
        if self.members.push(*person).is_err() {
            unreachable!("a member has left")
        }
    }

    /// How many protections the members honour: the number of members.
    pub fn honoured(&self) -> u16
        ensures number { result ≡ length self.now.members }
        ensures honoured { IsHonoured self.now.protections self.now.members result }
        ensures kept { IsKept self.now }
    {
        self.members.len() as u16
    }

    /// The members, in the order in which they came.
    pub fn members(&self) -> &[Person]
        ensures { result.now ≡ self.now.members }
    {
        self.members.as_slice()
    }
}
