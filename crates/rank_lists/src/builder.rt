// A register in the making: what each further row is held against.
ghost use Rattle.std.specs.Prelude.{◌≡◌, ◌<◌, ◌∷◌, ◌++◌, [], List, Ok, OnOk, OnErr, IfOk, ◌||◌, ℕ};
ghost use Rattle.office_base.specs.Person.{number_of};
ghost use Rattle.section_rows.specs.Rows.{Row, field};
ghost use Rattle.std.specs.BTreeMap as tree;
ghost use Rattle.std.specs.BTreeSet as sorted;
ghost use Rattle.std.specs.Ordering.{nat_cmp};
ghost use Rattle.rank_lists.specs.declared.entry.Entry.{Entry};
ghost use Rattle.rank_lists.specs.Register.{places_of, is_relaxed, any_relaxed, is_number, is_taken, repeats};

use crate::entry::Entry;
use crate::fault::RankKind;
use crate::fields::{read_category, read_place};
use crate::register::Register;
use office_base::limits::{LAST_ID, MOST_CANDIDATES};
use office_base::{CandId, Category, OutOfMemory, Person, Place, Token};
use office_text::{read_number, read_traits};
use section_rows::{Rows, TableBuilder};
use std::alloc::{AllocError, Global};
use std::collections::{BTreeMap, BTreeSet};

/// A register in the making: the candidates so far by id, who holds which token, and the numbers taken in each of the four lists.
#[derive(Drop)]
pub(crate) struct RegisterBuilder {
    pub(crate) people: BTreeMap<u32, Person>,
    pub(crate) holders: BTreeMap<Token, CandId>,
    pub(crate) first: BTreeSet<u32>,
    pub(crate) second: BTreeSet<u32>,
    pub(crate) third: BTreeSet<u32>,
    pub(crate) fourth: BTreeSet<u32>,
}

impl RegisterBuilder {
    ghost use Rattle.rank_lists.specs.Builder.{Keeps};
    ghost use Rattle.rank_lists.specs.Register.{IsRegister, any_repeats, new_id, new_token, reading, places_of, any_relaxed};
    ghost use Rattle.rank_lists.specs.declared.entry.Entry.{Entry};

    /// No candidates.
    pub(crate) fn new(alloc: Global) -> RegisterBuilder
        ensures { Keeps [] result }
    {
        RegisterBuilder {
            people: BTreeMap::new(alloc),
            holders: BTreeMap::new(alloc),
            first: BTreeSet::new(alloc),
            second: BTreeSet::new(alloc),
            third: BTreeSet::new(alloc),
            fourth: BTreeSet::new(alloc),
        }
    }

    /// The id of a row, where it is a new one.
    fn new_id(&self, row: &Rows<'_>) -> Result<u32, RankKind>
        ensures { (entries : List Entry) → Keeps entries self.now
            → result ≡ new_id entries row.now.row }
    {
        if self.people.len() >= MOST_CANDIDATES {
            return Err(RankKind::TooMany);
        }
        let Some(id) = read_number(row.field(0), 1, LAST_ID) else {
            return Err(RankKind::BadId);
        };
        if self.people.contains_key(&id) {
            Err(RankKind::RepeatedId)
        } else {
            Ok(id)
        }
    }

    /// The token that a text spells, where it is a new one.
    fn new_token(&self, text: &[u8]) -> Result<Token, RankKind>
        ensures { (entries : List Entry) → Keeps entries self.now
            → result ≡ new_token entries text.now }
    {
        let Some(token) = Token::read(text) else {
            return Err(RankKind::BadToken);
        };
        if self.holders.contains_key(&token) {
            Err(RankKind::BadToken)
        } else {
            Ok(token)
        }
    }

    /// Whether the number of one of the places is taken in its list.
    fn any_repeats(&self, places: &[Place; 4]) -> bool
        ensures { (entries : List Entry) → Keeps entries self.now
            → result ≡ any_repeats places.now entries }
    {
        repeats(&self.first, places[0])
            || repeats(&self.second, places[1])
            || repeats(&self.third, places[2])
            || repeats(&self.fourth, places[3])
    }

    /// What a row gives, or the first of its faults.
    #[tactic(auto, unfolding(crate::specs::Register::reading))]
    fn read(&self, row: &Rows<'_>) -> Result<Entry, RankKind>
        ensures { (entries : List Entry) → Keeps entries self.now
            → result ≡ reading entries row.now.row }
    {
        let id = self.new_id(row)?;
        let Some(category) = read_category(row.field(1)) else {
            return Err(RankKind::BadCategory);
        };
        let Some(traits) = read_traits(row.field(2)) else {
            return Err(RankKind::BadTrait);
        };
        let places = read_places(row)?;
        if self.any_repeats(&places) {
            return Err(RankKind::RepeatedPlace);
        }
        if matches!(category, Category::Gen) && any_relaxed(&places) {
            return Err(RankKind::RelaxedGeneral);
        }
        let token = self.new_token(row.field(3))?;
        Ok(Entry {
            person: Person {
                id: CandId(id),
                category,
                traits,
                places,
            },
            token,
        })
    }

    /// Puts in what a row gave. Where there is no memory for it, the builder is of no use any more.
    fn add(&mut self, entry: Entry) -> Result<(), OutOfMemory>
        ensures { OnOk result ((entries : List Entry) (row : Row) → Keeps entries self.old
            → reading entries row ≡ Ok entry → Keeps (entries ++ entry ∷ []) self.new) }
    {
        let person = entry.person;
        take(&mut self.first, person.places[0])?;
        take(&mut self.second, person.places[1])?;
        take(&mut self.third, person.places[2])?;
        take(&mut self.fourth, person.places[3])?;
        self.holders.insert(entry.token, person.id)?;
        self.people.insert(person.id.0, person)?;
        Ok(())
    }

    /// The register of all that was put in.
    pub(crate) fn finish(self, alloc: Global) -> Result<Register, OutOfMemory>
        requires { (entries : List Entry) × Keeps entries self }
        ensures { IfOk result (λ register. (entries : List Entry)
            → Keeps entries self → IsRegister entries register) }
    {
        let RegisterBuilder {
            people,
            holders,
            ..
        } = self;
        let people = in_order(alloc, &people)?;
        Ok(Register {
            ids: people.iter().map(|person| person.id.0).collect(alloc)?,
            people,
            holders: holders.into_iter().collect(alloc)?,
        })
    }
}

impl TableBuilder for RegisterBuilder {
    ghost use Rattle.rank_lists.specs.Builder.{Keeps};
    ghost use Rattle.rank_lists.specs.Register.{header, reading};
    ghost use Rattle.rank_lists.specs.declared.entry.Entry.{Entry};
    ghost use Rattle.rank_lists.specs.declared.fault.RankKind.TheVariants.{BadHeader};

    type Kind = RankKind;

    ghost Entry = { Entry };

    ghost names = { header };

    ghost bad = { BadHeader };

    ghost Beside = { Unit {0} };

    ghost beside = { λ _. tt };

    ghost reading = { λ _. reading };

    ghost keeps = { λ builder entries. Keeps entries builder };

    fn is_header(row: &Rows<'_>) -> bool {
        row.is(&[
            b"id".as_slice(),
            b"category".as_slice(),
            b"traits".as_slice(),
            b"token".as_slice(),
            b"m1".as_slice(),
            b"m2".as_slice(),
            b"m3".as_slice(),
            b"m4".as_slice(),
        ])
    }

    fn bad_header() -> RankKind {
        RankKind::BadHeader
    }

    fn put(&mut self, row: &Rows<'_>) -> Result<Option<RankKind>, OutOfMemory> {
        match self.read(row) {
            Ok(entry) => {
                self.add(entry)?;
                Ok(None)
            }
            Err(kind) => Ok(Some(kind)),
        }
    }
}

/// The people in rising order of id.
fn in_order(alloc: Global, people: &BTreeMap<u32, Person>) -> Result<Vec<Person>, AllocError>
    ensures all { IfOk result (λ list. list.items ≡ tree.values people.now) }
    ensures ordered { tree.IsOrdered nat_cmp people.now }
{
    people.values().copied().collect(alloc)
}

/// Whether the number of a place is among those taken in its list.
fn repeats(taken: &BTreeSet<u32>, place: Place) -> bool
    ensures { (list : ℕ) (entries : List Entry) → ((n : ℕ) → sorted.contains nat_cmp taken.now n
        ≡ is_taken list n entries) → result ≡ repeats list (number_of place) entries }
{
    match place.number() {
        Some(number) => taken.contains(&number),
        None => false,
    }
}

/// Takes the number of a place in its list, where it has one.
fn take(taken: &mut BTreeSet<u32>, place: Place) -> Result<(), OutOfMemory>
    ensures { OnOk result ((n : ℕ) → sorted.contains nat_cmp taken.new n
        ≡ (is_number n (number_of place) || sorted.contains nat_cmp taken.old n)) }
{
    if let Some(number) = place.number() {
        taken.insert(number)?;
    }
    Ok(())
}

/// The four places of a row.
fn read_places(row: &Rows<'_>) -> Result<[Place; 4], RankKind>
    ensures { result ≡ places_of row.now.row }
{
    let (Some(first), Some(second), Some(third), Some(fourth)) = (
        read_place(row.field(4)),
        read_place(row.field(5)),
        read_place(row.field(6)),
        read_place(row.field(7)),
    ) else {
        return Err(RankKind::BadPlace);
    };
    if row.len() > 8 {
        return Err(RankKind::BadPlace);
    }
    Ok([first, second, third, fourth])
}

/// Whether the place is relaxed.
fn is_relaxed(place: Place) -> bool
    ensures { result ≡ is_relaxed place }
{
    matches!(place, Place::Relaxed(_))
}

/// Whether one of the places is relaxed.
fn any_relaxed(places: &[Place; 4]) -> bool
    ensures { result ≡ any_relaxed places.now }
{
    is_relaxed(places[0]) || is_relaxed(places[1]) || is_relaxed(places[2]) || is_relaxed(places[3])
}
