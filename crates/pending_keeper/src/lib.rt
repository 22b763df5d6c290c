// A keeper that lets the rows of answers and raises wait, and keeps all of them together when it is settled.
//
// `Pending` stands over a keeper that can put many rows in one call, as one over a database can in one transaction.
// So many accepted requests share one sync. Its tables are those of that keeper with the rows that wait.
// It must never know what a row means.
#![tactic(auto)]

mod pending;

pub use pending::Pending;
