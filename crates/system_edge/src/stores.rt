// Two files, opened as a database.
ghost use Rattle.std.specs.Prelude.{◌≡◌, ◌↔◌, IfOk, IfErr, IsTrue};
ghost use Rattle.sqlite.specs.State.{HasCleanDisk};
ghost use Rattle.sqlite.specs.Held.{IsNew};
ghost use Rattle.sqlite.specs.Files.{file_state, IsOpened, Finds};
ghost use Rattle.sqlite_wal.specs.Reads.{IsClean};
ghost use Rattle.system_edge.specs.Hidden.{HoldNothing, MayOpen};
ghost use Rattle.system_edge.specs.Stores.{AreOnlyRead, IsRefused, files_left};

use crate::heads::EMPTY_LEN;
use crate::hidden::is_sound;
use sqlite::{Connection, FileStore, Files, Options};
use sqlite_disk::Disk;
use std::alloc::Global;
use std::io;

/// Files that were not opened.
pub enum Unopened<D: Disk> {
    /// The log is damaged, or could not be read. Neither file was written.
    Log(Files<D>),
    /// The database refused the files, or failed.
    Database(Files<D>),
}

impl<D: Disk> Unopened<D> {
    /// Gives the files back.
    pub fn into_files(self) -> Files<D>
        ensures { (result.log, result.db) ≡ files_left self }
    {
        match self {
            Unopened::Log(files) | Unopened::Database(files) => files,
        }
    }
}

// It is written out, because only files that can be dropped are.
impl<D: Disk + Drop> Drop for Unopened<D> {
    fn drop(self) {
        match self {
            Unopened::Log(_files) => {}
            Unopened::Database(_files) => {}
        }
    }
}

// Returns whether files hold nothing: the database file is empty, and the log is too short for a frame. The call only reads.
fn hold_nothing<D: Disk>(files: &mut Files<D>) -> io::Result<bool>
    requires log { IsTrue (D.Disk.is_usable files.old.log) }
    requires db { IsTrue (D.Disk.is_usable files.old.db) }
    ensures nothing { IfOk result (λ found. IsClean D.Disk files.new.log
        → IsClean D.Disk files.new.db → (IsTrue found
        ↔ HoldNothing (D.Disk.seen files.old.log) (D.Disk.seen files.old.db))) }
    ensures same { AreOnlyRead D.Disk files.old files.new }
{
    let log = files.log.len()?;
    let db = files.db.len()?;
    Ok(log <= EMPTY_LEN && db == 0)
}

// Returns whether a database may open these files. The call only reads.
fn may_open<D: Disk>(alloc: Global, files: &mut Files<D>) -> io::Result<bool>
    requires log { IsTrue (D.Disk.is_usable files.old.log) }
    requires db { IsTrue (D.Disk.is_usable files.old.db) }
    ensures sound { IfOk result (λ found. IsClean D.Disk files.new.log
        → IsClean D.Disk files.new.db → (IsTrue found
        ↔ MayOpen (D.Disk.seen files.old.log) (D.Disk.seen files.old.db))) }
    ensures same { AreOnlyRead D.Disk files.old files.new }
{
    let sound = is_sound(alloc, &mut files.log)?;
    let nothing = hold_nothing(files)?;
    Ok(sound || nothing)
}

/// Opens the database in these files. An empty file gets an empty database.
/// A log whose head is not sound, or that hides a commit behind damage, is refused before the database sees it, but for
/// one that is too short for a frame and lies beside an empty file: a power cut came before anything was kept.
/// Neither file is written then: the database would cut such a log, and what it holds would be lost.
pub fn open_store<D: Disk + Drop>(
    alloc: Global,
    mut files: Files<D>,
    options: Options,
) -> Result<Connection<FileStore<D>>, Unopened<D>>
    requires log { IsTrue (D.Disk.is_usable files.log) }
    requires db { IsTrue (D.Disk.is_usable files.db) }
    ensures fresh { IfOk result IsNew }
    ensures opened { IfOk result (λ c. HasCleanDisk (file_state c) → IsOpened c × Finds files c) }
    ensures sound { IfOk result (λ c. HasCleanDisk (file_state c)
        → MayOpen (D.Disk.seen files.log) (D.Disk.seen files.db)) }
    ensures refused { IfErr result (IsRefused D.Disk files) }
{
    let Ok(true) = may_open(alloc, &mut files) else {
        return Err(Unopened::Log(files));
    };
    match Connection::open_files(alloc, files, options) {
        Ok(connection) => Ok(connection),
        Err((_, left)) => Err(Unopened::Database(left.into_files())),
    }
}
