// Choices in the making: what each further row is held against.
ghost use Rattle.std.specs.Prelude.{◌≡◌, ◌<◌, [], List, Ok, Err, Some, IfOk, OnOk, IfSome, MatchResult, ℕ, false, length, map, option_map, slice_index_or, ◌==◌};
ghost use Rattle.office_base.specs.declared.person.ProgId.{ProgId};
ghost use Rattle.section_rows.specs.Rows.{same_fields};
ghost use Rattle.rank_lists.specs.Register.{row_of};
ghost use Rattle.choice_lists.specs.Choices.{choice, is_chosen, person_of, programme_of};
ghost use Rattle.choice_lists.specs.Builder.{AreGiven};

use crate::choices::Choices;
use crate::fault::ChoiceKind;
use crate::flat::FlatLists;
use office_base::limits::{LAST_ID, MOST_CHOICES, MOST_ROW_CHOICES};
use office_base::{CandId, Code, OutOfMemory, Person, ProgId};
use office_text::read_number;
use rank_lists::Register;
use seat_matrix::Matrix;
use section_rows::{Rows, TableBuilder};
use std::alloc::{AllocError, Global};

/// How many places for guesses there are.
const GUESSES: usize = 65_536;

/// Choices in the making. The lists and the marks of those who had a row go along with the people of the register, and the
/// ids of those who named a programme last, 0 for nobody, along with the programmes of the matrix. A guess is the number of
/// the programme that was found last for a text with this place: it only saves a search, and is always tested.
#[derive(Drop)]
pub(crate) struct ChoicesBuilder<'a> {
    register: &'a Register,
    matrix: &'a Matrix,
    lists: FlatLists<ProgId>,
    had_row: Vec<bool>,
    named_last: Vec<u32>,
    guesses: Vec<u16>,
    chosen: Vec<ProgId>,
    total: usize,
}

impl<'a> ChoicesBuilder<'a> {
    ghost use Rattle.choice_lists.specs.Builder.{Keeps};
    ghost use Rattle.choice_lists.specs.Choices.{AreChoices, Entry, lists_for, new_candidate};

    /// No lists.
    pub(crate) fn new(
        alloc: Global,
        register: &'a Register,
        matrix: &'a Matrix,
    ) -> Result<ChoicesBuilder<'a>, OutOfMemory>
        ensures empty { IfOk result (λ builder. Keeps [] builder) }
        ensures beside { IfOk result (λ builder. (builder.register.now ≡ register.now)
            × (builder.matrix.now ≡ matrix.now)) }
    {
        let people = register.people().len();
        let programmes = usize::from(matrix.count());
        Ok(ChoicesBuilder {
            register,
            matrix,
            lists: FlatLists::empty_lists(alloc, people)?,
            had_row: vec![in alloc; false; people]?,
            named_last: vec![in alloc; 0; programmes]?,
            guesses: vec![in alloc; 0; GUESSES]?,
            chosen: Vec::new(alloc),
            total: 0,
        })
    }

    /// The candidate of a row with the position in the register, where it is the candidate's first row and there is room for
    /// its programmes.
    fn new_candidate(&self, row: &Rows<'_>) -> Result<(usize, Person), ChoiceKind>
        requires { (entries : List Entry) × Keeps entries self.now }
        ensures given { (entries : List Entry) → Keeps entries self.now → MatchResult result
            (λ found. new_candidate self.now.register.now entries row.now.row ≡ Ok found.1)
            (λ kind. new_candidate self.now.register.now entries row.now.row ≡ Err kind) }
        ensures row { IfOk result (λ found.
            row_of found.1.id.0 self.now.register.now.people ≡ Some found.0) }
    {
        let Some((at, person)) = read_person(self.register, row.field(0)) else {
            return Err(ChoiceKind::UnknownCandidate);
        };
        if self.had_row[at] {
            return Err(ChoiceKind::RepeatedCandidate);
        }
        let count = row.len().saturating_sub(1);
        if count > MOST_ROW_CHOICES {
            return Err(ChoiceKind::TooLong);
        }
        if self.total + count > MOST_CHOICES {
            return Err(ChoiceKind::TooMany);
        }
        Ok((at, person))
    }

    /// The choices of all that was put in.
    pub(crate) fn finish(self, alloc: Global) -> Result<Choices, OutOfMemory>
        requires { (entries : List Entry) × Keeps entries self }
        ensures lists { IfOk result (λ choices. (entries : List Entry)
            → Keeps entries self.entry → choices ≡ lists_for self.entry.register.now entries) }
        ensures sound { IfOk result (λ choices.
            AreChoices self.entry.register.now self.entry.matrix.now choices) }
        ensures aligned { IfOk result (λ choices. map (λ held. held.0) choices
            ≡ map (λ person. person.id.0) self.entry.register.now.people) }
    {
        let ids = ids_of(alloc, self.register.people())?;
        Ok(Choices {
            ids,
            lists: self.lists,
        })
    }
}

impl<'a> TableBuilder for ChoicesBuilder<'a> {
    ghost use Rattle.choice_lists.specs.Builder.{Keeps};
    ghost use Rattle.choice_lists.specs.Choices.{Entry, header, reading};
    ghost use Rattle.rank_lists.specs.Register.{Ranks};
    ghost use Rattle.seat_matrix.specs.Matrix.{SeatTable};
    ghost use Rattle.choice_lists.specs.declared.fault.ChoiceKind.TheVariants.{BadHeader};

    type Kind = ChoiceKind;

    ghost Entry = { Entry };

    ghost names = { header };

    ghost bad = { BadHeader };

    ghost Beside = { Ranks × SeatTable };

    ghost beside = { λ builder. (builder.register.now, builder.matrix.now) };

    ghost reading = { λ beside. reading beside.0 beside.1 };

    ghost keeps = { λ builder entries. Keeps entries builder };

    fn is_header(row: &Rows<'_>) -> bool
        ensures { result ≡ same_fields row.now.row header }
    {
        row.is(&[b"candidate".as_slice(), b"programmes".as_slice()])
    }

    fn bad_header() -> ChoiceKind
        ensures { result ≡ BadHeader }
    {
        ChoiceKind::BadHeader
    }

    fn put(&mut self, row: &Rows<'_>) -> Result<Option<ChoiceKind>, OutOfMemory> {
        let (at, person) = match self.new_candidate(row) {
            Ok(found) => found,
            Err(kind) => return Ok(Some(kind)),
        };
        let fault = read_programmes(
            self.matrix,
            &person,
            row,
            self.named_last.as_mut_slice(),
            self.guesses.as_mut_slice(),
            &mut self.chosen,
        )?;
        if let Some(kind) = fault {
            return Ok(Some(kind));
        }
        self.lists.set(at, self.chosen.as_slice())?;
        self.had_row[at] = true;
        self.total += self.chosen.as_slice().len();
        Ok(None)
    }
}

/// The ids of people, in their order.
fn ids_of(alloc: Global, people: &[Person]) -> Result<Vec<u32>, AllocError>
    ensures { IfOk result (λ ids. ids.items ≡ map (λ person. person.id.0) people.now) }
{
    people.iter().map(|person| person.id.0).collect(alloc)
}

/// The person whose id a text spells, with the position in the register.
fn read_person(register: &Register, text: &[u8]) -> Option<(usize, Person)>
    ensures person { option_map (λ found. found.1) result ≡ person_of register.now text.now }
    ensures row { IfSome result (λ found. row_of found.1.id.0 register.now.people ≡ Some found.0) }
    ensures within { IfSome result (λ found. found.0 < length register.now.people) }
{
    let id = read_number(text, 1, LAST_ID)?;
    let at = register.position(CandId(id))? as usize;
    Some((at, register.people()[at]))
}

/// The place of a text's guess: texts of one place share it.
fn guess_place(text: &[u8]) -> usize
    ensures { result < 65536 }
{
    let mut hash = 2_166_136_261u32;
    for byte in text {
        hash = (hash ^ u32::from(*byte)).wrapping_mul(16_777_619);
    }
    hash as usize % GUESSES
}

/// The programme whose code a text spells: the one of the guess, where it has this code, or else the one that is found, which
/// becomes the guess.
fn find_programme(matrix: &Matrix, guesses: &mut [u16], text: &[u8]) -> Option<ProgId>
    requires { length guesses.old ≡ 65536 }
    ensures number { option_map (λ prog. prog.0) result ≡ programme_of matrix.now text.now }
    ensures known { IfSome result (λ prog. prog.0 < length matrix.now.programmes) }
{
    let place = guess_place(text);
    let guess = ProgId(guesses[place]);
    if matrix.has_code(guess, text) {
        return Some(guess);
    }
    let prog = matrix.find(Code::read(text)?)?;
    guesses[place] = prog.0;
    Some(prog)
}

/// Returns the programme that a field names, after those that are earlier in the row: these are the ones that the
/// person named last.
fn read_choice(
    matrix: &Matrix,
    person: &Person,
    named_last: &[u32],
    guesses: &mut [u16],
    text: &[u8],
) -> Result<ProgId, ChoiceKind>
    requires marks { length named_last.now ≡ length matrix.now.programmes }
    requires guesses { length guesses.old ≡ 65536 }
    ensures given { (progs : List ProgId)
        → ((n : ℕ) → (slice_index_or named_last.now n 0 == person.now.id.0) ≡ is_chosen n progs)
        → result ≡ choice matrix.now person.now progs text.now }
    ensures known { IfOk result (λ prog. prog.0 < length matrix.now.programmes) }
{
    let Some(prog) = find_programme(matrix, guesses, text) else {
        return Err(ChoiceKind::UnknownProgramme);
    };
    if named_last[usize::from(prog.0)] == person.id.0 {
        Err(ChoiceKind::RepeatedProgramme)
    } else if person.place(matrix.list(prog)).number().is_none() {
        Err(ChoiceKind::NotRankedThere)
    } else {
        Ok(prog)
    }
}

/// Reads the programmes of a row, up to the first fault, for a person who named none of the programmes last, and marks each
/// of them as named by the person.
fn read_programmes(
    matrix: &Matrix,
    person: &Person,
    row: &Rows<'_>,
    named_last: &mut [u32],
    guesses: &mut [u16],
    chosen: &mut Vec<ProgId>,
) -> Result<Option<ChoiceKind>, OutOfMemory>
    requires marks { length named_last.old ≡ length matrix.now.programmes }
    requires guesses { length guesses.old ≡ 65536 }
    requires apart { (n : ℕ) → (slice_index_or named_last.old n 0 == person.now.id.0) ≡ false }
    ensures given { IfOk result (λ fault.
        AreGiven matrix.now person.now row.now.row chosen.new.items fault) }
    ensures others { OnOk result ((n q : ℕ) → (person.now.id.0 == q) ≡ false → (slice_index_or
        named_last.old n 0 == q) ≡ false → (slice_index_or named_last.new n 0 == q) ≡ false) }
{
    chosen.clear();
    let mut at = 1;
    'fields: while at < row.len() {
        match read_choice(matrix, person, named_last, guesses, row.field(at)) {
            Ok(prog) => {
                named_last[usize::from(prog.0)] = person.id.0;
                chosen.push(prog)?;
            }
            Err(kind) => return Ok(Some(kind)),
        }
        at += 1;
    }
    Ok(None)
}
