// Laws of registers themselves, for any reader.
ghost use Rattle.std.specs.Prelude.{List};
ghost use Rattle.section_rows.specs.Rows.{Row};
ghost use Rattle.rank_lists.specs.Laws.{HaveOneReading};

/// Shows that rows give one register, which is sound, or have one first fault, and never both.
pub fn one_reading()
    ensures { (rows : List Row) → HaveOneReading rows }
{}
