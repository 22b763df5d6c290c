// The seat matrix, as the layers above see it.
ghost use Rattle.std.specs.Prelude.{◌≡◌, ◌<◌, ◌≤◌, Some, IfOk, IfErr, length, map, option_map, position, slice_get, sum, bytes_eq, false, IsTrue};
ghost use Rattle.office_base.specs.Person.{IsList};
ghost use Rattle.section_rows.specs.Rows.{rows_of};
ghost use Rattle.office_base.specs.Limits.{most_step_seats};
ghost use Rattle.office_text.specs.Names.{code_of};
ghost use Rattle.seat_matrix.specs.Matrix.{IsRead, IsFault, HasSeating, list_in, matrix_with, resized, seating_in, seats_in, steps_in};
ghost use Rattle.seat_matrix.specs.Seats.{AreProgrammeSeats, IsSeated, is_dereserved};

use crate::builder::MatrixBuilder;
use crate::entry::Home;
use crate::fault::MatrixFault;
use crate::seats::{ProgrammeSeats, Seating, Seatings};
use office_base::{Code, ListId, OutOfMemory, ProgId, Protections, StepKind, find_sorted};
use section_rows::read_table;
use std::alloc::Global;
use std::marker::Model;

/// Holds the programmes by their numbers, and the seats of the steps of each. It keeps the numbers once more by the
/// codes, in their order: so a code is found by a search, and no map comes with a matrix.
#[derive(Drop)]
pub struct Matrix {
    pub(crate) programmes: Vec<(Code, Home)>,
    pub(crate) numbers: Vec<(Code, ProgId)>,
    pub(crate) steps: Vec<Seatings>,
}

impl Model for Matrix {
    ghost use Rattle.seat_matrix.specs.Matrix.{SeatTable, IsKeptMatrix};

    ghost Value = { SeatTable };

    ghost view = { λ a. record { programmes = a.programmes.items; steps = a.steps.items } };

    ghost invariant = { λ a. IsKeptMatrix a.numbers.items (record { programmes = a.programmes.items; steps = a.steps.items }) };
}

impl Matrix {
    ghost use Rattle.seat_matrix.specs.Matrix.{AreSeats};

    /// The matrix that the body of a section spells, or its first fault by rows.
    pub fn read(alloc: Global, body: &[u8]) -> Result<Matrix, MatrixFault>
        ensures value { IfOk result (λ matrix. IsRead (rows_of body.now) matrix) }
        ensures fault { IfErr result (λ fault. IsFault (rows_of body.now) fault) }
    {
        let mut builder = MatrixBuilder::new(alloc);
        read_table(alloc, body, &mut builder)?;
        Ok(builder.finish(alloc)?)
    }

    /// How many programmes there are: at most 2,000.
    pub fn count(&self) -> u16
        ensures count { result ≡ length self.now.programmes }
        ensures seats { AreSeats self.now }
    {
        self.programmes.len() as u16
    }

    /// The number of the programme of this code. None exactly where no row has the code.
    pub fn find(&self, code: Code) -> Option<ProgId>
        ensures { option_map (λ prog. prog.0) result
            ≡ position (bytes_eq code) (map (λ held. held.0) self.now.programmes) }
    {
        find_sorted(self.numbers.as_slice(), &code).copied()
    }

    /// The code of a programme.
    pub fn code(&self, prog: ProgId) -> Code
        requires { prog.0 < length self.now.programmes }
        ensures { option_map (λ held. held.0) (slice_get self.now.programmes prog.0) ≡ Some result }
    {
        self.programmes[usize::from(prog.0)].0
    }

    /// Whether there is a programme of this number and a text spells its code. Then the programme is the one of this code.
    pub fn has_code(&self, prog: ProgId, text: &[u8]) -> bool
        ensures same { prog.0 < length self.now.programmes → option_map (λ held.
            bytes_eq held.0 text.now) (slice_get self.now.programmes prog.0) ≡ Some result }
        ensures within { IsTrue result → prog.0 < length self.now.programmes }
        ensures code { IsTrue result → code_of text.now ≡ Some text.now }
        ensures number { IsTrue result → position (bytes_eq text.now)
            (map (λ held. held.0) self.now.programmes) ≡ Some prog.0 }
    {
        if prog.0 >= self.count() {
            return false;
        }
        let code = self.code(prog);
        code.bytes() == text
    }

    /// Returns the institute of a programme.
    pub fn institute(&self, prog: ProgId) -> Code
        requires { prog.0 < length self.now.programmes }
        ensures { option_map (λ held. held.1.institute) (slice_get self.now.programmes prog.0)
            ≡ Some result }
    {
        self.programmes[usize::from(prog.0)].1.institute
    }

    /// The merit list that a programme uses.
    pub fn list(&self, prog: ProgId) -> ListId
        requires { prog.0 < length self.now.programmes }
        ensures list { option_map (λ held. held.1.list) (slice_get self.now.programmes prog.0)
            ≡ Some result }
        ensures number { IsList result }
    {
        self.programmes[usize::from(prog.0)].1.list
    }

    /// The seats of a programme in a step: 0 where no row was given, and for seats that a category left unfilled.
    pub fn seats(&self, prog: ProgId, step: StepKind) -> u16
        requires { prog.0 < length self.now.programmes }
        ensures seats { result ≡ (seating_in self.now prog.0 step).seats }
        ensures most { result ≤ most_step_seats }
    {
        self.seating(prog, step).seats
    }

    /// The protections of a programme in a step: 0 where no row was given, and for seats that a category left unfilled.
    pub fn protections(&self, prog: ProgId, step: StepKind) -> Protections
        requires { prog.0 < length self.now.programmes }
        ensures protections { result ≡ (seating_in self.now prog.0 step).protections }
        ensures within { sum result.counts ≤ (seating_in self.now prog.0 step).seats }
    {
        self.seating(prog, step).protections
    }

    /// All that the matrix has for a programme: its list, and the seats and protections of its steps.
    pub fn programme(&self, prog: ProgId) -> ProgrammeSeats
        requires { prog.0 < length self.now.programmes }
        ensures seats { result ≡ seats_in self.now prog.0 }
        ensures list { result.list ≡ list_in self.now prog.0 }
        ensures sound { AreProgrammeSeats result }
    {
        ProgrammeSeats {
            list: self.list(prog),
            steps: self.steps[usize::from(prog.0)],
        }
    }

    /// Raises the seats of a programme in a step to this number, with its protections as before. All else stays. It takes
    /// no memory.
    pub fn raise(&mut self, prog: ProgId, step: StepKind, seats: u16)
        requires programme { prog.0 < length self.old.programmes }
        requires step { is_dereserved step ≡ false }
        requires more { (seating_in self.old prog.0 step).seats ≤ seats }
        requires most { seats ≤ most_step_seats }
        ensures whole { self.new
            ≡ matrix_with self.old prog.0 step (resized self.old prog.0 step seats) }
        ensures seats { HasSeating self.old prog.0 step
            (resized self.old prog.0 step seats) self.new }
    {
        let protections = self.protections(prog, step);
        self.set(prog, step, seats, protections);
    }

    /// Gives a programme these seats and protections in a step. All else stays. Allocates nothing.
    pub fn set(&mut self, prog: ProgId, step: StepKind, seats: u16, protections: Protections)
        requires programme { prog.0 < length self.old.programmes }
        requires step { is_dereserved step ≡ false }
        requires protections { sum protections.counts ≤ seats }
        requires most { seats ≤ most_step_seats }
        ensures whole { self.new ≡ matrix_with self.old prog.0 step
            (record { seats = seats; protections = protections }) }
        ensures seats { HasSeating self.old prog.0 step
            (record { seats = seats; protections = protections }) self.new }
    {
        self.steps[usize::from(prog.0)].put(step, Seating { seats, protections });
    }

    /// An equal matrix.
    pub fn copy(&self, alloc: Global) -> Result<Matrix, OutOfMemory>
        ensures { IfOk result (λ matrix. matrix ≡ self.now) }
    {
        Ok(Matrix {
            programmes: Vec::from_slice(alloc, self.programmes.as_slice())?,
            numbers: Vec::from_slice(alloc, self.numbers.as_slice())?,
            steps: Vec::from_slice(alloc, self.steps.as_slice())?,
        })
    }

    /// What the matrix has for a programme in a step.
    fn seating(&self, prog: ProgId, step: StepKind) -> Seating
        requires { prog.0 < length self.now.programmes }
        ensures given { result ≡ seating_in self.now prog.0 step }
        ensures within { IsSeated result }
    {
        self.steps[usize::from(prog.0)].of(step)
    }
}
