// A keeper over a database: the records of a season as rows of five tables.
//
// It meets the trait of keepers over a connection to any store, a file or memory.
// Each method is one transaction. What runs without values is a list of acts (`tables`), and each other statement has a
// function of its own, one module a table.
// Everything that the database refuses, a lack of memory apart, is a counted fault, and so are rows that are no
// records. On an open store with its five tables alone, the rows are visible as records.
// After a put, the visible tables are what the put says, or unchanged, and a crash leaves one of the two
// (`stored_tables` has the layout and the meaning of the texts).
// For every store, visible or hidden, it is proved that a fault comes only with a count that rose, that a put commits
// one database whole or nothing, and which calls it made. No function here knows what the records mean to an office.
#![tactic(auto)]

mod allot;
mod answer;
mod calls;
mod columns;
mod halt;
mod keeper;
pub mod laws;
mod lift;
mod looks;
mod numbers;
mod phase;
mod puts;
mod records;
mod rising;
mod season;
mod tables;
mod transactions;

pub use keeper::SqliteKeeper;
