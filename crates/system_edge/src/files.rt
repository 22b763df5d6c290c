// A file, opened and closed as a keeper.
ghost use Rattle.std.specs.Prelude.{◌≡◌, IfSome, IsTrue, false, true};
ghost use Rattle.kept_rows.specs.Tables.{IsTold};
ghost use Rattle.stored_tables.specs.Told.{told};
ghost use Rattle.system_edge.specs.Held.{AreHeld};
ghost use Rattle.system_edge.specs.Tables.{HoldsFiles, IsOpenedOver};
ghost use Rattle.sqlite.specs.State.{HasCleanDisk};
ghost use Rattle.sqlite.specs.Held.{state};
ghost use Rattle.sqlite.specs.Files.{file_state};
ghost use Rattle.sqlite.specs.Held.{IsNew};
ghost use Rattle.sqlite_std_file.specs.File.{IsFresh, file_is_usable};
ghost use Rattle.sqlite_wal.specs.Files.{image_at};

use crate::stores::open_store;
use keeper_sqlite::SqliteKeeper;
use office_base::Text;
use sqlite::{Alter, Connection, FileFrom, FileStore, Files, Options, Start};
use std::hash::{BuildHasher, RandomState};
use std::str;

/// A keeper over a file that held what `S` says.
pub type FileKeeper<S> = SqliteKeeper<FileStore<FileFrom<S>>>;

/// Names a file, which together with its log holds what `S` says.
/// No code can read what `S` says, so what is proved of a store file is proved for all contents.
/// A store file opens the file of its own name and no other, and it opens it once.
#[derive(Drop)]
pub struct StoreFile<S: Start> {
    name: Text,
    start: S,
}

impl<S: Start> StoreFile<S> {
    /// Names a file by its path. It touches no file.
    pub fn new(name: Text, start: S) -> StoreFile<S>
        ensures { result.name ≡ name }
    {
        StoreFile { name, start }
    }
}

/// Opens a keeper over this file and its log, with no faults yet, and makes the tables that are missing.
/// Returns None if the name is no path of a file, if the files or the tables cannot be opened,
/// or if the log is damaged. Damage of the log leaves both files as they were.
pub fn open_keeper<S: Start>(rt: &HostRuntime, file: StoreFile<S>) -> Option<FileKeeper<S>>
    ensures holds { IfSome result (HoldsFiles (image_at S.Start)) }
    // if its tables are visible, they are the records that the two files held
    ensures records { IfSome result (λ keeper. IsTold (told (file_state keeper.connection))
        → AreHeld (image_at S.Start) (told (file_state keeper.connection))) }
{
    let StoreFile { name, start } = file;
    let connection = open_file(rt, &name, start)?;
    let mut keeper = SqliteKeeper::new(connection);
    match keeper.make_tables() {
        Ok(()) => {
            is_clean_if_visible(&keeper);
            Some(keeper)
        }
        Err(_) => None,
    }
}

// Shows that the disk returned what was written if the tables of a keeper are visible. It does nothing.
fn is_clean_if_visible<A: Alter>(keeper: &SqliteKeeper<A>)
    ensures { IsTold (told (state A.Store keeper.now.connection))
        → HasCleanDisk (state A.Store keeper.now.connection) }
{}

/// Closes the file. What was kept is in the file and in the log next to it,
/// also if the log cannot be copied into the file.
pub fn close_keeper<S: Start>(keeper: FileKeeper<S>) {
    let _ = keeper.into_connection().close();
}

// How many pages of the database are kept in memory once they were read: 33 MB of them. The database tests all keys when it
// opens a store, and with a cache of 8 MB it reads most pages of a large store several times.
const CACHE_PAGES: usize = 8_000;

// Opens the file of this name.
fn open_file<S: Start>(
    rt: &HostRuntime,
    name: &Text,
    start: S,
) -> Option<Connection<FileStore<FileFrom<S>>>>
    ensures fresh { IfSome result IsNew }
    ensures opened { IfSome result (IsOpenedOver (image_at S.Start)) }
{
    let path = str::from_utf8(name.as_slice()).ok()?;
    let files = open_pair(rt, path, start)?;
    // a number drawn at random, for the salts of the log
    let seed = RandomState::new(rt).ok()?.hash_one(&0u8);
    let options = Options {
        cache_pages: CACHE_PAGES,
        ..Options::new(seed)
    };
    match open_store(rt.alloc(), files, options) {
        Ok(connection) => Some(connection),
        Err(_unopened) => None,
    }
}

// Opens the two files at a path, and makes those that are missing.
// Returns None for a name that SQLite gives another meaning.
fn open_pair<S: Start>(rt: &HostRuntime, path: &str, start: S) -> Option<Files<FileFrom<S>>>
    ensures log { IfSome result (λ files. IsTrue (file_is_usable S.Start files.log)) }
    ensures db { IfSome result (λ files. IsTrue (file_is_usable S.Start files.db)) }
    ensures fresh { IfSome result (λ files. IsFresh true files.log × IsFresh false files.db) }
{
    if path == ":memory:" || path.starts_with("file:") {
        return None;
    }
    sqlite_std_file::open(rt, path, start).ok()
}
