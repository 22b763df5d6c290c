// The season over a database in memory: what it holds in the end is what a keeper in memory holds.
use crate::seasons::{is_whole, run_well};
use keeper_sqlite::SqliteKeeper;
use sqlite::{Connection, MemStore};
use std::alloc::Global;
use std::test::Fail;

type Store = SqliteKeeper<MemStore>;

// The four tables of a database from before there were raises. It did not look at the kinds of their values.
const FIRST_TABLES: &str =
    "CREATE TABLE season (part INTEGER PRIMARY KEY, bytes BLOB NOT NULL); CREATE TABLE answer (seq INTEGER PRIMARY KEY, win INTEGER NOT NULL, cand INTEGER NOT NULL, turn INTEGER NOT NULL, choice INTEGER NOT NULL, UNIQUE (win, cand, turn)); CREATE TABLE allot (rnd INTEGER NOT NULL, cand INTEGER NOT NULL, prog INTEGER NOT NULL, step INTEGER NOT NULL, PRIMARY KEY (rnd, cand)); CREATE TABLE phase (id INTEGER PRIMARY KEY, cuts INTEGER NOT NULL)";

// A keeper over the database after these statements, with the tables made that are not there.
fn after(mut connection: Connection<MemStore>, statements: &str) -> Result<Store, Fail> {
    connection.execute_batch(statements)?;
    let mut keeper = SqliteKeeper::new(connection);
    keeper.make_tables()?;
    Ok(keeper)
}

fn empty(alloc: Global, statements: &str) -> Result<Store, Fail> {
    after(Connection::open_in_memory(alloc)?, statements)
}

// The keeper without the table of raises, which is then made again.
fn without_raises(keeper: Store) -> Result<Store, Fail> {
    after(keeper.into_connection(), "DROP TABLE lift")
}

// A keeper after the whole season over these tables.
fn run_over(alloc: Global, statements: &str) -> Result<Store, Fail> {
    run_well(alloc, empty(alloc, statements)?)
}

// The same of a season that was kept before there were raises.
fn run_before_raises(alloc: Global) -> Result<Store, Fail> {
    without_raises(run_over(alloc, FIRST_TABLES)?)
}

// Whether a season that is kept in new tables is what a keeper in memory holds.
fn is_kept(alloc: Global) -> Result<bool, Fail> {
    is_whole(alloc, run_over(alloc, "")?)
}

// Whether one that was kept before there were raises is, too.
fn is_kept_without_raises(alloc: Global) -> Result<bool, Fail> {
    is_whole(alloc, run_before_raises(alloc)?)
}

#[test]
fn it_holds_what_a_keeper_in_memory_holds(rt: HostRuntime) -> Result<(), Fail> {
    assert!(rt; is_kept(rt.alloc())?);
    Ok(())
}

#[test]
fn it_goes_on_from_before_there_were_raises(rt: HostRuntime) -> Result<(), Fail> {
    assert!(rt; is_kept_without_raises(rt.alloc())?);
    Ok(())
}
