// Laws of matrices themselves, for any reader.
ghost use Rattle.std.specs.Prelude.{List};
ghost use Rattle.section_rows.specs.Rows.{Row};
ghost use Rattle.seat_matrix.specs.Laws.{HaveOneReading, OneStepChanges};

/// Shows that rows give one matrix, which is sound, or have one first fault, and never both.
pub fn one_reading()
    ensures { (rows : List Row) → HaveOneReading rows }
{}

/// A matrix with other seats in one step has them there, and is as before elsewhere.
pub fn one_step_changes()
    ensures { OneStepChanges }
{}
