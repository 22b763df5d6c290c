// An office as it is given to a desk.
ghost use Rattle.std.specs.Prelude.{◌≡◌, ◌<◌, ◌≤◌, length};
ghost use Rattle.kept_rows.specs.Tables.{IsTold};
ghost use Rattle.office_http.specs.Asking.{AsksOffice, token_of};
ghost use Rattle.office_http.specs.Keeping.{CountsKept, IsKept, KeepsStood, SettlesStood};
ghost use Rattle.proceedings.specs.Proceeding.{last_of};

use crate::putting::settle_office;
use crate::{Bodies, put_to_office};
use http_sessions::Answered;
use http_wire::Fault;
use keeper_mem::Keeper;
use office_asks::Ask;
use office_base::Booked;
use office_desk::Keeps;
use office_moves::Entry;
use round_cut::Office;
use std::alloc::Global;
use std::marker::{Brand, Model, PhantomData};

/// The visible tables of an office's keeper when the office was given to a desk, and those that a crash would have left.
/// Each desk picks them.
pub trait TablesBefore {
    ghost use Rattle.kept_rows.specs.Tables.{Tables};

    ghost tables: { Tables };

    ghost kept: { Tables };
}

impl TablesBefore for Brand {
    ghost use Rattle.kept_rows.specs.Tables.{Untold};

    ghost tables = { Untold };

    ghost kept = { Untold };
}

/// An office whose keeper's tables are visible only if they were visible at the beginning.
/// It knows how many of its entries are kept.
pub struct DeskOffice<K: Keeper, B: TablesBefore> {
    pub(crate) office: Office<K>,
    // what was made before of the published rounds and the final admissions
    bodies: Bodies,
    kept: usize,
    of: PhantomData<B>,
}

impl<K: Keeper, B: TablesBefore> Model for DeskOffice<K, B> {
    ghost use Rattle.kept_rows.specs.Tables.{IsTold};
    ghost use Rattle.office_http.specs.Bodies.{AreBodies};
    ghost use Rattle.office_http.specs.Keeping.{IsKept, StoodView};

    ghost Value = { StoodView K };

    ghost view = { λ a. record { office = a.office; kept = a.kept } };

    ghost invariant = { λ a. (IsTold (K.seen a.office.keeper).tables → IsTold B.tables) × AreBodies a.office.season a.office.state a.bodies
        × IsKept B.kept a.office.season a.office.entries a.kept (K.seen a.office.keeper) };
}

/// It is the same book as the office.
impl<K: Keeper, B: TablesBefore> Booked for DeskOffice<K, B> {
    type Item = Entry;

    ghost use Rattle.std.specs.Prelude.{Bool};
    ghost use Rattle.office_moves.specs.Facts.{SeasonFacts};

    ghost Basis = { SeasonFacts × Bool };

    ghost basis = { λ stood. (stood.office.season, (K.seen stood.office.keeper).holds_room) };

    ghost entries = { λ stood. stood.office.entries };

    ghost number = { λ entry. entry.number };

    ghost count = { λ stood. (K.seen stood.office.keeper).faults };

    fn last_number(&self) -> u64 {
        let _entries = self.office.entries();
        self.office.last_number()
    }
}

/// A crash leaves the entries that were kept when the last turn ended.
impl<K: Keeper, B: TablesBefore> Keeps for DeskOffice<K, B> {
    ghost kept = { λ stood. stood.kept };
}

/// Returns whether no row of the office's keeper waits, and how many entries are kept: all if none waits, and otherwise
/// as many as before.
pub(crate) fn count_kept<K: Keeper>(office: &Office<K>, before: usize) -> (bool, usize)
    ensures { CountsKept K.seen office.now before result.0 result.1 }
{
    let entries = office.entries();
    if office.is_settled() {
        (true, entries.len())
    } else {
        (false, before)
    }
}

impl<K: Keeper, B: TablesBefore> DeskOffice<K, B> {
    /// Takes the office as it is at the beginning.
    pub fn new(alloc: Global, office: Office<K>) -> DeskOffice<K, B>
        requires tables { (K.seen office.keeper).tables ≡ B.tables }
        requires kept { (K.seen office.keeper).kept ≡ B.kept }
        ensures { result.office ≡ office }
    {
        let (_, kept) = count_kept(&office, 0);
        DeskOffice {
            office,
            bodies: Bodies::new(alloc),
            kept,
            of: PhantomData,
        }
    }

    /// Puts an ask with its token to the office, as `put_to_office` does.
    /// Returns also whether nothing waits to be kept then, and how many entries the office has.
    pub fn put(
        &mut self,
        alloc: Global,
        number: u64,
        has_token: bool,
        token: &[u8],
        ask: &Ask,
    ) -> (Result<Answered, Fault>, bool, usize)
        requires { last_of self.old.office.entries < number }
        ensures asked { AsksOffice K.seen number (token_of has_token token.now)
            ask.now result.0 self.old.office self.new.office }
        ensures counted { CountsKept K.seen self.new.office self.old.kept result.1 self.new.kept }
        ensures keeps { self.old.kept ≤ self.new.kept }
        ensures count { result.2 ≡ length self.new.office.entries }
    {
        let answer = put_to_office(
            alloc,
            &mut self.office,
            &mut self.bodies,
            number,
            has_token,
            token,
            ask,
        );
        let (settled, kept) = count_kept(&self.office, self.kept);
        self.kept = kept;
        (answer, settled, self.office.entries().len())
    }

    /// Keeps what waits, unless nothing does. It accepts nothing.
    /// After a fault what waited still waits, and a crash may take it back.
    pub fn settle(&mut self) -> Result<(), Fault>
        ensures { SettlesStood K.seen result self.old self.new }
    {
        let done = settle_office(&mut self.office);
        let (_, kept) = count_kept(&self.office, self.kept);
        self.kept = kept;
        done
    }

    /// Keeps what waits, unless so many entries are kept already. It accepts nothing.
    /// After a fault what waited still waits, and a crash may take it back.
    pub fn keep(&mut self, needed: usize) -> Result<(), Fault>
        ensures { KeepsStood K.seen needed result self.old self.new }
    {
        if needed <= self.kept {
            return Ok(());
        }
        self.settle()
    }

    /// Returns the office. The tables of its keeper are visible only if they were visible at the beginning.
    pub fn into_office(self) -> Office<K>
        ensures same { result ≡ self.office }
        ensures told { IsTold (K.seen result.keeper).tables → IsTold B.tables }
        ensures kept { IsKept B.kept result.season result.entries self.kept
            (K.seen result.keeper) }
    {
        let DeskOffice {
            office,
            bodies: _bodies,
            kept: _,
            of: _,
        } = self;
        office
    }
}
