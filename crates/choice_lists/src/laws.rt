// Laws of choices themselves, for any reader.
ghost use Rattle.std.specs.Prelude.{List};
ghost use Rattle.section_rows.specs.Rows.{Row};
ghost use Rattle.rank_lists.specs.Register.{Ranks};
ghost use Rattle.seat_matrix.specs.Matrix.{SeatTable};
ghost use Rattle.choice_lists.specs.Laws.{DependOnPeopleAndProgrammes, HaveOneReading};

/// States that, given ranks and seats, rows give sound lists or have one first fault, and never both.
pub fn one_reading()
    ensures { (ranks : Ranks) (seats : SeatTable) (rows : List Row)
        → HaveOneReading ranks seats rows }
{}

/// Of the ranks only the people matter, and of the seats only the programmes.
pub fn same_reading()
    ensures { (rows : List Row) → DependOnPeopleAndProgrammes rows }
{}
