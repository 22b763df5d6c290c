// What is in the five tables of a keeper over a database.
//
// It has the layout of the tables, what their rows represent, and what each text that a keeper runs or asks does to its one
// table, by the meaning that the database gives to the text. It holds no code but laws.
// The keeper over a database depends on it. It must never know of connections, transactions or faults, nor of what the records
// mean to an office.
#![tactic(auto)]

pub mod laws;
