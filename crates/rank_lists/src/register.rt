// The merit register, as the layers above see it.
ghost use Rattle.std.specs.Prelude.{◌≡◌, ◌<◌, List, IfOk, IfErr, IfSome, IsTrue, ◌↔◌, length, option_copied, slice_get, slice_index};
ghost use Rattle.std.specs.Option.{option_and_then};
ghost use Rattle.office_base.specs.Person.{IsList};
ghost use Rattle.section_rows.specs.Rows.{rows_of};
ghost use Rattle.rank_lists.specs.Register.{find_person, find_holder, place_of_person, row_of, IsBefore, IsRead, IsFault};

use crate::builder::RegisterBuilder;
use crate::fault::RankFault;
use office_base::{CandId, ListId, OutOfMemory, Person, Place, Token, better, find_sorted};
use section_rows::read_table;
use std::alloc::Global;
use std::marker::Model;

/// Holds the candidates with their places on the merit lists, and who holds which token, in the order of the tokens.
/// It keeps the ids once more by themselves: a search among them reads few bytes.
#[derive(Drop)]
pub struct Register {
    pub(crate) ids: Vec<u32>,
    pub(crate) people: Vec<Person>,
    pub(crate) holders: Vec<(Token, CandId)>,
}

impl Model for Register {
    ghost use Rattle.rank_lists.specs.Register.{Ranks, IsKeptRegister};

    ghost Value = { Ranks };

    ghost view = { λ a. record { people = a.people.items; holders = a.holders.items } };

    ghost invariant = { λ a. IsKeptRegister a.ids.items (record { people = a.people.items; holders = a.holders.items }) };
}

impl Register {
    ghost use Rattle.rank_lists.specs.Register.{AreRanks};

    /// The register that the body of a section spells, or its first fault by rows.
    pub fn read(alloc: Global, body: &[u8]) -> Result<Register, RankFault>
        ensures value { IfOk result (λ register. IsRead (rows_of body.now) register) }
        ensures fault { IfErr result (λ fault. IsFault (rows_of body.now) fault) }
    {
        let mut builder = RegisterBuilder::new(alloc);
        read_table(alloc, body, &mut builder)?;
        Ok(builder.finish(alloc)?)
    }

    /// An equal register.
    pub fn copy(&self, alloc: Global) -> Result<Register, OutOfMemory>
        ensures { IfOk result (λ register. register ≡ self.now) }
    {
        Ok(Register {
            ids: Vec::from_slice(alloc, self.ids.as_slice())?,
            people: Vec::from_slice(alloc, self.people.as_slice())?,
            holders: Vec::from_slice(alloc, self.holders.as_slice())?,
        })
    }

    /// Returns the position of the candidate of this id among all, in rising order of id and counted from 0. `None`
    /// exactly when no row has the id. Allocates nothing.
    pub fn position(&self, id: CandId) -> Option<u32>
        ensures row { result ≡ row_of id.0 self.now.people }
        ensures within { IfSome result (λ at. at < length self.now.people) }
        ensures person { option_and_then (λ at. slice_get self.now.people at) result
            ≡ find_person id.0 self.now.people }
    {
        if let Some(at) = counted(self.ids.as_slice(), id.0) {
            return Some(at);
        }
        match self.ids.binary_search(&id.0) {
            Ok(at) => Some(at as u32),
            Err(_) => None,
        }
    }

    /// Returns the person of this id. `None` exactly when no row has the id. Allocates nothing.
    pub fn person(&self, id: CandId) -> Option<&Person>
        ensures { option_copied result ≡ find_person id.0 self.now.people }
    {
        match self.position(id) {
            Some(at) => Some(&self.people[at as usize]),
            None => None,
        }
    }

    /// The candidate of this token. None exactly where no row has the token.
    pub fn who(&self, token: &[u8]) -> Option<CandId>
        ensures { result ≡ find_holder token.now self.now.holders }
    {
        let holders = self.holders.as_slice();
        let token = Token::read(token)?;
        find_sorted(holders, &token).copied()
    }

    /// All candidates, in rising order of id.
    pub fn people(&self) -> &[Person]
        ensures same { result.now ≡ self.now.people }
        ensures ranks { AreRanks self.now }
    {
        self.people.as_slice()
    }

    /// Whether both candidates are known and the first one is better in the list.
    pub fn before(&self, list: ListId, a: CandId, b: CandId) -> bool
        requires { IsList list }
        ensures { IsTrue result
            ↔ IsBefore list (find_person a.0 self.now.people) (find_person b.0 self.now.people) }
    {
        match (self.person(a), self.person(b)) {
            (Some(first), Some(second)) => better(first, second, list),
            _ => false,
        }
    }

    /// The candidate's place in the list. An unknown candidate has none.
    pub fn place(&self, list: ListId, id: CandId) -> Place
        requires { IsList list }
        ensures { result ≡ place_of_person list (find_person id.0 self.now.people) }
    {
        match self.person(id) {
            Some(person) => person.place(list),
            None => Place::Absent,
        }
    }
}

/// Returns the position of an id, if the ids run on from the first one to it without a gap. Allocates nothing.
fn counted(ids: &[u32], id: u32) -> Option<u32>
    ensures { IfSome result (λ at. (at < length ids.now) × (slice_index ids.now at ≡ id)) }
{
    let Some(first) = ids.first() else {
        return None;
    };
    let at = id.saturating_sub(*first);
    if (at as usize) < ids.len() && ids[at as usize] == id {
        Some(at)
    } else {
        None
    }
}
