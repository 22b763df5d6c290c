// Laws of the spellings themselves, for any reader and writer.
ghost use Rattle.std.specs.Prelude.{ℕ, List};
ghost use Rattle.office_text.specs.FirstFault.{Judge, HaveOneAnswer};
ghost use Rattle.office_text.specs.Number.{AreInverse};
ghost use Rattle.office_text.specs.Traits.{AreReadAsSpelled};

/// Rows have no fault, or exactly one first fault, whatever the judge.
pub fn one_first_fault()
    ensures { (judge : Judge (List ℕ) ℕ) (rows : List (List ℕ)) → HaveOneAnswer judge rows }
{}

/// Reading and writing a number undo each other.
pub fn numbers_are_inverse()
    ensures { AreInverse }
{}

/// A text is read as a set of traits exactly where it is a dash or nothing, or its letters are distinct and in order.
pub fn traits_are_read_as_spelled()
    ensures { AreReadAsSpelled }
{}
