// The seat matrix with all accepted raises.
ghost use Rattle.std.specs.Prelude.{◌≡◌, ◌<◌, ◌≤◌, ◌+◌, ◌++◌, ◌∷◌, [], ℕ, false, length, OnOk};
ghost use Rattle.std.specs.List.{list_any};
ghost use Rattle.office_base.specs.Limits.{most_raised_seats, most_step_seats};
ghost use Rattle.office_base.specs.declared.step.StepKind.{StepKind};
ghost use Rattle.seat_matrix.specs.Matrix.{AreSeats, matrix_with, seating_in};
ghost use Rattle.seat_matrix.specs.Seats.{is_dereserved};
ghost use Rattle.raised_seats.specs.Raised.{looks_at};
ghost use Rattle.office_moves.specs.Decided.{same_raise};
ghost use Rattle.office_moves.specs.Raised.{raised_to, total_seats};

use crate::accepted::AcceptedRaises;
use kept_rows::RaiseRow;
use office_base::OutOfMemory;
use office_moves::{RaiseFacts, total_seats};
use seat_matrix::Matrix;
use std::alloc::Global;
use std::marker::Model;

/// The seat matrix with all raises so far, and these raises.
#[derive(Drop)]
pub struct RaisedSeats {
    matrix: Matrix,
    /// The present seats of all steps.
    total: u32,
    raises: AcceptedRaises,
}

impl Model for RaisedSeats {
    ghost use Rattle.std.specs.Prelude.{◌≡◌};
    ghost use Rattle.raised_seats.specs.Raised.{Raised};
    ghost use Rattle.office_moves.specs.Raised.{total_seats};

    ghost Value = { Raised };

    ghost view = { λ a. record { matrix = a.matrix; raises = a.raises.rows; room = a.raises.room } };

    ghost invariant = { λ a. a.total ≡ total_seats a.matrix };
}

impl RaisedSeats {
    /// Returns a matrix of which nothing is raised yet. It takes no memory.
    pub fn new(alloc: Global, matrix: Matrix) -> RaisedSeats
        ensures matrix { result.matrix ≡ matrix }
        ensures raises { result.raises ≡ [] }
    {
        let total = total_seats(&matrix);
        let raises = AcceptedRaises::new(alloc);
        RaisedSeats {
            matrix,
            total,
            raises,
        }
    }

    /// Returns the matrix with all raises so far.
    pub fn matrix(&self) -> &Matrix
        ensures { result.now ≡ self.now.matrix }
    {
        &self.matrix
    }

    /// Returns the seats of all steps of all programmes, without a walk over them.
    fn total(&self) -> u32
        ensures total { result ≡ total_seats self.now.matrix }
        ensures most { result ≤ most_raised_seats }
        ensures step { (prog : ℕ) (step : StepKind)
            → (seating_in self.now.matrix prog step).seats ≤ result }
        ensures seats { AreSeats self.now.matrix }
    {
        let _count = self.matrix.count();
        self.total
    }

    /// Returns what a raise is judged by, in this open window of a season with this many rounds. It walks neither the matrix nor the raises.
    pub fn looks(&self, window: u16, rounds: u16, row: RaiseRow) -> RaiseFacts
        requires { row.prog.0 < length self.now.matrix.programmes }
        ensures looks { result ≡ looks_at self.now window rounds row }
        ensures few { result.seats ≤ result.total }
        ensures all { result.total ≤ most_raised_seats }
    {
        RaiseFacts {
            again: self.raises.has(row),
            window,
            rounds,
            seats: self.matrix.seats(row.prog, row.step),
            total: self.total(),
        }
    }

    /// Takes room for one more raise. When memory runs out, all is unchanged, and there is no less room.
    pub fn reserve(&mut self) -> Result<(), OutOfMemory>
        ensures matrix { self.new.matrix ≡ self.old.matrix }
        ensures raises { self.new.raises ≡ self.old.raises }
        ensures more { self.old.room ≤ self.new.room }
        ensures room { OnOk result (1 ≤ self.new.room) }
    {
        self.raises.reserve()
    }

    /// Raises the seats of a step, with its protections as before. It takes no memory.
    pub fn raise(&mut self, row: RaiseRow)
        requires fresh { list_any (same_raise row) self.old.raises ≡ false }
        requires space { 1 ≤ self.old.room }
        requires programme { row.prog.0 < length self.old.matrix.programmes }
        requires step { is_dereserved row.step ≡ false }
        requires more { (seating_in self.old.matrix row.prog.0 row.step).seats ≤ row.seats }
        requires most { row.seats ≤ most_step_seats }
        ensures matrix { self.new.matrix ≡ matrix_with self.old.matrix row.prog.0 row.step
            (raised_to (seating_in self.old.matrix row.prog.0 row.step) row.seats) }
        ensures raises { self.new.raises ≡ self.old.raises ++ row ∷ [] }
    {
        let before = self.matrix.seats(row.prog, row.step);
        self.total = self.total() + u32::from(row.seats - before);
        self.matrix.raise(row.prog, row.step, row.seats);
        self.raises.put(row);
    }
}
