// The rows of a section of the season file, one after another, and the grammar of a table of such rows.
//
// The readers of the register, the matrix and the choices depend on it. Records come from `csv`: commas, quotes, no
// trimming, records of any length. Empty fields at the end of a record are dropped, and a record without fields left
// is skipped. A row lies in one buffer until the next one is read. `specs/` defines the rows of a body as a function
// of its bytes, and which fault of a table is the first. It must never know what a row means: a table's own crate
// says that.
#![tactic(auto)]

pub mod fault;
pub mod laws;
pub mod rows;
pub mod table;

pub use fault::TableFault;
pub use rows::Rows;
pub use table::{TableBuilder, read_table};
