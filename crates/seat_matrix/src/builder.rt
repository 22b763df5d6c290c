// A matrix in the making: what each further row is held against.
ghost use Rattle.std.specs.Prelude.{◌≡◌, ◌≢◌, ◌≤◌, ◌∷◌, ◌++◌, [], ℕ, List, OnOk, IfOk, None, Some, bytes_eq, if◌then◌else◌, length, nat_eq};
ghost use Rattle.std.specs.Cmp.Lexicographic.{pointwise};
ghost use Rattle.indexmap.specs.IndexMap as index;
ghost use Rattle.office_base.specs.Limits.{most_matrix_seats, most_programmes};
ghost use Rattle.office_base.specs.Lists.{Pairwise};
ghost use Rattle.section_rows.specs.Rows.{Row};
ghost use Rattle.section_rows.specs.Steps.{or_else};
ghost use Rattle.seat_matrix.specs.Builder.{AreNumbers};
ghost use Rattle.seat_matrix.specs.Matrix.{codes_in, with_code};

use crate::entry::{Entry, Home};
use crate::fault::MatrixKind;
use crate::fields::read_seating;
use crate::matrix::Matrix;
use crate::seats::{Seating, Seatings};
use indexmap::IndexMap;
use office_base::limits::{MOST_MATRIX_SEATS, MOST_PROGRAMMES};
use office_base::{Code, ListId, OWN_COUNT, OWN_STEPS, OutOfMemory, ProgId, StepKind, step_number};
use office_text::{read_number, read_step};
use section_rows::{Rows, TableBuilder};
use std::alloc::Global;
use std::collections::BTreeMap;

/// A matrix in the making: the programmes so far in the order in which they first appeared, so that the index of each is
/// its number, the seats of their steps, and all seats.
#[derive(Drop)]
pub(crate) struct MatrixBuilder {
    pub(crate) programmes: IndexMap<Code, Home>,
    pub(crate) steps: BTreeMap<(Code, u8), Seating>,
    pub(crate) total: u32,
}

impl MatrixBuilder {
    ghost use Rattle.office_base.specs.StepNumbers.{step_number};
    ghost use Rattle.seat_matrix.specs.Matrix.{IsMatrix, codes_of, given, home_at, new_row, reading, seating_at, seatings_in, settles};
    ghost use Rattle.seat_matrix.specs.Builder.{Keeps};
    ghost use Rattle.seat_matrix.specs.declared.entry.Entry.{Entry};
    ghost use Rattle.std.specs.Prelude.{map};

    /// No programmes.
    pub(crate) fn new(alloc: Global) -> MatrixBuilder
        ensures { Keeps [] result }
    {
        MatrixBuilder {
            programmes: IndexMap::new(alloc),
            steps: BTreeMap::new(alloc),
            total: 0,
        }
    }

    /// The programme, the institute and the step of a row, where no earlier row has the programme and the step.
    fn new_row(&self, row: &Rows<'_>) -> Result<(Code, Code, StepKind), MatrixKind>
        ensures { (entries : List Entry) → Keeps entries self.now
            → result ≡ new_row entries row.now.row }
    {
        let Some(programme) = Code::read(row.field(0)) else {
            return Err(MatrixKind::BadCode);
        };
        let Some(institute) = Code::read(row.field(1)) else {
            return Err(MatrixKind::BadCode);
        };
        let Some(step) = read_step(row.field(3)) else {
            return Err(MatrixKind::BadCode);
        };
        if self.steps.contains_key(&(programme, step_number(step))) {
            return Err(MatrixKind::RepeatedRow);
        }
        Ok((programme, institute, step))
    }

    /// The home of a programme, where it is a new programme or has the same home as before.
    fn settles(&self, programme: Code, home: Home) -> Result<Home, MatrixKind>
        ensures { (entries : List Entry) → Keeps entries self.now
            → result ≡ settles (home_at programme entries) (length (codes_of entries)) home }
    {
        match self.programmes.get(&programme) {
            None => {
                if self.programmes.len() >= MOST_PROGRAMMES {
                    Err(MatrixKind::TooMany)
                } else {
                    Ok(home)
                }
            }
            Some(known) => {
                if known.institute != home.institute {
                    Err(MatrixKind::TwoInstitutes)
                } else if known.list != home.list {
                    Err(MatrixKind::TwoLists)
                } else {
                    Ok(home)
                }
            }
        }
    }

    /// What a row gives, or the first of its faults.
    #[tactic(auto, unfolding(crate::specs::Matrix::reading))]
    fn read(&self, row: &Rows<'_>) -> Result<Entry, MatrixKind>
        requires { (entries : List Entry) × Keeps entries self.now }
        ensures { (entries : List Entry) → Keeps entries self.now
            → result ≡ reading entries row.now.row }
    {
        let (programme, institute, step) = self.new_row(row)?;
        let Some(seating) = read_seating(row) else {
            return Err(MatrixKind::BadNumber);
        };
        if u32::from(seating.seats) < seating.protections.sum() {
            return Err(MatrixKind::ProtectionsExceedSeats);
        }
        let Some(list) = read_number(row.field(2), 1, 4) else {
            return Err(MatrixKind::UnknownList);
        };
        let home = self.settles(
            programme,
            Home {
                institute,
                list: ListId(list as u8),
            },
        )?;
        if self.total + u32::from(seating.seats) > MOST_MATRIX_SEATS {
            return Err(MatrixKind::TooMany);
        }
        Ok(Entry {
            programme,
            home,
            step,
            seating,
        })
    }

    /// Puts in what a row gave. Where there is no memory for it, the builder is of no use any more.
    fn add(&mut self, entry: Entry) -> Result<(), OutOfMemory>
        requires { (entries : List Entry) × Keeps entries self.old }
        ensures { OnOk result ((entries : List Entry) (row : Row) → Keeps entries self.old
            → reading entries row ≡ Ok entry → Keeps (entries ++ entry ∷ []) self.new) }
    {
        self.steps
            .insert((entry.programme, step_number(entry.step)), entry.seating)?;
        settle(&mut self.programmes, entry.programme, entry.home)?;
        self.total += u32::from(entry.seating.seats);
        Ok(())
    }

    /// What the entries give for a programme in a step.
    fn seating(&self, code: Code, step: StepKind) -> Seating
        ensures { (entries : List Entry) → Keeps entries self.now
            → result ≡ given (seating_at code (step_number step) entries) }
    {
        match self.steps.get(&(code, step_number(step))) {
            Some(seating) => *seating,
            None => Seating::none(),
        }
    }

    /// What the entries give for the steps of a programme.
    fn seatings(&self, code: Code) -> Seatings
        ensures { (entries : List Entry) → Keeps entries self.now
            → result ≡ seatings_in entries code }
    {
        let mut own = [Seating::none(); OWN_COUNT];
        for i in 0..OWN_STEPS.len() {
            own[i] = self.seating(code, OWN_STEPS[i]);
        }
        Seatings { own }
    }

    /// What the entries give for each programme, by its number.
    fn all_seatings(&self, alloc: Global) -> Result<Vec<Seatings>, OutOfMemory>
        ensures { IfOk result (λ steps. (entries : List Entry) → Keeps entries self.now
            → steps.items ≡ map (seatings_in entries) (codes_of entries)) }
    {
        let mut steps = Vec::new(alloc);
        for (code, _) in self.programmes.iter() {
            steps.push(self.seatings(*code))?;
        }
        Ok(steps)
    }

    /// The matrix of all that was put in.
    pub(crate) fn finish(self, alloc: Global) -> Result<Matrix, OutOfMemory>
        requires { (entries : List Entry) × Keeps entries self }
        ensures { IfOk result (λ matrix. (entries : List Entry)
            → Keeps entries self → IsMatrix entries matrix) }
    {
        let steps = self.all_seatings(alloc)?;
        let programmes: Vec<(Code, Home)> = self.programmes.into_iter().collect(alloc)?;
        let numbers = number(alloc, programmes.as_slice())?;
        Ok(Matrix {
            programmes,
            numbers: numbers.into_iter().collect(alloc)?,
            steps,
        })
    }
}

impl TableBuilder for MatrixBuilder {
    ghost use Rattle.seat_matrix.specs.Builder.{Keeps};
    ghost use Rattle.seat_matrix.specs.Matrix.{header, reading};
    ghost use Rattle.seat_matrix.specs.declared.entry.Entry.{Entry};
    ghost use Rattle.seat_matrix.specs.declared.fault.MatrixKind.TheVariants.{BadHeader};

    type Kind = MatrixKind;

    ghost Entry = { Entry };

    ghost names = { header };

    ghost bad = { BadHeader };

    ghost Beside = { Unit {0} };

    ghost beside = { λ _. tt };

    ghost reading = { λ _. reading };

    ghost keeps = { λ builder entries. Keeps entries builder };

    fn is_header(row: &Rows<'_>) -> bool {
        row.is(&[
            b"programme".as_slice(),
            b"institute".as_slice(),
            b"list".as_slice(),
            b"step".as_slice(),
            b"seats".as_slice(),
            b"W".as_slice(),
            b"D".as_slice(),
            b"X".as_slice(),
            b"S".as_slice(),
            b"F".as_slice(),
            b"L".as_slice(),
        ])
    }

    fn bad_header() -> MatrixKind {
        MatrixKind::BadHeader
    }

    fn put(&mut self, row: &Rows<'_>) -> Result<Option<MatrixKind>, OutOfMemory> {
        match self.read(row) {
            Ok(entry) => {
                self.add(entry)?;
                Ok(None)
            }
            Err(kind) => Ok(Some(kind)),
        }
    }
}

/// Gives the programme the next number, unless it has one.
fn settle(programmes: &mut IndexMap<Code, Home>, code: Code, home: Home) -> Result<(), OutOfMemory>
    ensures keys { OnOk result
        (index.keys programmes.new ≡ with_code (index.keys programmes.old) code) }
    ensures homes { OnOk result ((q : List ℕ) → index.get (pointwise nat_eq) programmes.new q
        ≡ or_else (index.get (pointwise nat_eq) programmes.old q)
        (if bytes_eq q code then Some home else None)) }
{
    if !programmes.contains_key(&code) {
        programmes.insert(code, home)?;
    }
    Ok(())
}

/// Returns the number of each programme by its code.
fn number(alloc: Global, programmes: &[(Code, Home)]) -> Result<BTreeMap<Code, ProgId>, OutOfMemory>
    requires distinct { Pairwise (λ a b. a ≢ b) (codes_in programmes.now) }
    requires few { length programmes.now ≤ most_programmes }
    ensures { IfOk result (λ numbers. AreNumbers programmes.now numbers) }
{
    let mut numbers = BTreeMap::new(alloc);
    for i in 0..programmes.len() {
        numbers.insert(programmes[i].0, ProgId(i as u16))?;
    }
    Ok(numbers)
}
