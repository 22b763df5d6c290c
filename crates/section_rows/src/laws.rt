// What holds of the fault that a table reports. Each is the contract of a function that does nothing.
ghost use Rattle.std.specs.Prelude.{List};
ghost use Rattle.section_rows.specs.FirstFault.{ReportsFirst};
ghost use Rattle.section_rows.specs.Rows.{Row};

use crate::table::TableBuilder;

/// States that the fault of a table is that of its first row with a fault, and that a table is read if and only if no row has one.
pub fn first_is_reported<B: TableBuilder>()
    ensures { (beside : B.Beside) (rows : List Row)
        → ReportsFirst B.bad B.names (B.reading beside) rows }
{}
