// Who lives where: the tables of the units and of the states.
ghost use Rattle.std.specs.Prelude.{◌≡◌, [], ◌∷◌, ◌++◌, true, None, Ok, Err, IfOk, IfSome, OnOk, MatchResult};
ghost use Rattle.office_base.specs.Codes.{is_code};
ghost use Rattle.section_rows.specs.Rows.{rows_of};
ghost use Rattle.quota_units.specs.Homes.{AreAlike, Homes, home_at, homes_of, is_key, most_homes, new_home};

use crate::keys::Keys;
use crate::state::State;
use office_base::limits::{LAST_ID, MOST_CANDIDATES, MOST_PROGRAMMES};
use office_base::{Code, OutOfMemory};
use office_text::laws::numbers_are_inverse;
use office_text::read_number;
use section_rows::Rows;
use std::alloc::Global;
use std::collections::BTreeMap;
use std::marker::Model;

/// Keys with the state of each. A key is a code: so is each candidate's number.
#[derive(Drop)]
pub(crate) struct HomeTable {
    states: BTreeMap<Code, State>,
}

impl Model for HomeTable {
    ghost use Rattle.quota_units.specs.Homes.{AreCoded, Homes};

    ghost Value = { Homes };

    ghost view = { λ a. a.states.entries };

    ghost invariant = { λ a. AreCoded a.states.entries };
}

impl HomeTable {
    /// No keys.
    fn new(alloc: Global) -> HomeTable
        ensures { result ≡ [] }
    {
        HomeTable {
            states: BTreeMap::new(alloc),
        }
    }

    /// Returns the state of a key. `None` exactly when no row has the key. Allocates nothing.
    pub(crate) fn state(&self, key: &[u8]) -> Option<State>
        ensures { result ≡ home_at key.now self.now }
    {
        let states = &self.states;
        let key = Code::read(key)?;
        states.get(&key).copied()
    }

    /// What a row gives, where it gives a new key and its state and there is room.
    fn new_home(&self, row: &Rows<'_>, keys: Keys) -> Option<(Code, State)>
        ensures coded { IfSome result (λ home. is_code home.0 ≡ true) }
        ensures value { (homes : Homes) → AreAlike homes self.now
            → result ≡ new_home (is_key keys) (most_homes keys) homes row.now.row }
    {
        numbers_are_inverse();
        if row.len() != 2 || self.states.len() >= most(keys) || !is_key(keys, row.field(0)) {
            return None;
        }
        if self.state(row.field(0)).is_some() {
            return None;
        }
        let key = Code::read(row.field(0))?;
        let state = State::read(row.field(1))?;
        Some((key, state))
    }

    /// Puts in what a row gave. Where there is no memory for it, the table is of no use any more.
    fn put(&mut self, home: (Code, State)) -> Result<(), OutOfMemory>
        requires { is_code home.0 ≡ true }
        ensures { OnOk result ((homes : Homes) → AreAlike homes self.old
            → home_at home.0 homes ≡ None → AreAlike (homes ++ home ∷ []) self.new) }
    {
        self.states.insert(home.0, home.1)?;
        Ok(())
    }
}

/// How many keys there may be.
fn most(keys: Keys) -> usize
    ensures { result ≡ most_homes keys }
{
    match keys {
        Keys::Units => MOST_PROGRAMMES,
        Keys::States => MOST_CANDIDATES,
    }
}

/// Whether a text is a key.
fn is_key(keys: Keys, text: &[u8]) -> bool
    ensures { result ≡ is_key keys text.now }
{
    match keys {
        Keys::Units => Code::read(text).is_some() && text.len() <= 13,
        Keys::States => read_number(text, 1, LAST_ID).is_some(),
    }
}

/// The keys and states of the rows of a body, or the number of the first row that gives none. Rows are counted from 1.
pub(crate) fn read_homes(
    alloc: Global,
    body: &[u8],
    keys: Keys,
) -> Result<Result<HomeTable, u32>, OutOfMemory>
    ensures { IfOk result (λ read.
        MatchResult read (λ table. (homes : Homes) × (homes_of keys (rows_of body.now) ≡ Ok homes)
        × AreAlike homes table) (λ row. homes_of keys (rows_of body.now) ≡ Err row)) }
{
    let mut rows = Rows::new(alloc, body);
    let mut table = HomeTable::new(alloc);
    let mut number: u32 = 1;
    'rows: while rows.advance()? {
        let Some(home) = table.new_home(&rows, keys) else {
            return Ok(Err(number));
        };
        table.put(home)?;
        // no memory holds so many rows
        let Some(next) = number.checked_add(1) else {
            return Err(OutOfMemory);
        };
        number = next;
    }
    Ok(Ok(table))
}
