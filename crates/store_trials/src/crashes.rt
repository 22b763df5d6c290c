// The season over two files whose disk stops at a call. Each later call on that file fails, and a crash leaves what was synced.
// What is opened then holds the requests that were reported as accepted, perhaps one more, and resumes from there.
// No head of a log that a crash leaves is refused.
// If rows wait above the keeper, what a crash leaves has all answers between two cuts or none of them.
use crate::seasons::{goes_on, run_told, whole};
use keeper_sqlite::SqliteKeeper;
use kept_rows::Kept;
use pending_keeper::Pending;
use sqlite::{Alter, FileStore, Files, Options};
use sqlite_disk::{Crash, Disk, Fuse, Memory};
use std::alloc::Global;
use std::test::Fail;
use system_edge::open_store;

/// Files in memory, each of which stops after a number of calls.
type Stopping = Files<Fuse<Memory>>;

type Store = SqliteKeeper<FileStore<Fuse<Memory>>>;

/// Which file stops.
#[derive(Clone, Copy)]
enum Stop {
    Log,
    Database,
}

fn empty_files(alloc: Global, stop: Stop, calls: u64) -> Stopping {
    let (log, db) = match stop {
        Stop::Log => (calls, u64::MAX),
        Stop::Database => (u64::MAX, calls),
    };
    Files {
        log: Fuse::new(Memory::new(alloc), log),
        db: Fuse::new(Memory::new(alloc), db),
    }
}

// The log is copied into the database at almost each commit.
fn options() -> Options {
    let mut options = Options::new(1);
    options.cache_pages = 16;
    options.spill_pages = 16;
    options.checkpoint_frames = 2;
    options
}

// A keeper over these files, or the files where they cannot be opened.
fn opened(alloc: Global, files: Stopping) -> Result<Store, Stopping> {
    if !files.log.may_be_used() || !files.db.may_be_used() {
        return Err(files);
    }
    match open_store(alloc, files, options()) {
        Ok(connection) => Ok(SqliteKeeper::new(connection)),
        Err(unopened) => Err(unopened.into_files()),
    }
}

fn files_of(keeper: Store) -> Stopping {
    keeper.into_connection().into_store().close()
}

// The files after a crash. They stop no more.
fn crashed(mut files: Stopping) -> Stopping {
    files.log.crash();
    files.db.crash();
    files
}

// The keeper with its tables, or what a crash leaves where they cannot be made.
fn with_tables(mut keeper: Store) -> Result<Store, Stopping> {
    match keeper.make_tables() {
        Ok(()) => Ok(keeper),
        Err(_) => Err(crashed(files_of(keeper))),
    }
}

// A keeper over these files with its tables, or what a crash leaves.
fn begun(alloc: Global, files: Stopping) -> Result<Store, Stopping> {
    match opened(alloc, files) {
        Ok(keeper) => with_tables(keeper),
        Err(files) => Err(crashed(files)),
    }
}

/// Whether each row is kept at once, or rows wait above the keeper until a cut.
#[derive(Clone, Copy)]
enum Keep {
    AtOnce,
    Waiting,
}

/// What a crash leaves of a run.
struct Leaving {
    files: Stopping,
    /// How many requests were reported as accepted.
    told: usize,
    /// Whether the run ended well.
    is_well: bool,
}

// Runs the season over a keeper of any database. What is proved of one database alone would be much.
fn run_over<A: Alter + Drop>(
    alloc: Global,
    keeper: SqliteKeeper<A>,
    keep: Keep,
) -> Result<(bool, usize, SqliteKeeper<A>), Fail> {
    match keep {
        Keep::AtOnce => run_told(alloc, keeper),
        Keep::Waiting => run_waiting(alloc, keeper),
    }
}

// Runs it over a keeper above this one in which rows wait. What still waits at the end is lost.
fn run_waiting<A: Alter + Drop>(
    alloc: Global,
    keeper: SqliteKeeper<A>,
) -> Result<(bool, usize, SqliteKeeper<A>), Fail> {
    let (is_well, told, waiting) = run_told(alloc, Pending::new(alloc, keeper))?;
    Ok((is_well, told, waiting.into_keeper()))
}

// Whether a keeper of any database goes on.
fn goes_on_over<A: Alter + Drop>(
    alloc: Global,
    keeper: SqliteKeeper<A>,
    counts: &[usize],
    whole: &Kept,
) -> Result<bool, Fail> {
    goes_on(alloc, keeper, counts, whole)
}

// Runs the season over the keeper, and crashes.
fn run_to_crash(alloc: Global, keeper: Store, keep: Keep) -> Result<Leaving, Fail> {
    match run_over(alloc, keeper, keep) {
        Ok((is_well, told, keeper)) => Ok(Leaving {
            files: crashed(files_of(keeper)),
            told,
            is_well,
        }),
        Err(fail) => Err(fail),
    }
}

// The same over these files, where a run may not even begin.
fn run_and_crash(alloc: Global, files: Stopping, keep: Keep) -> Result<Leaving, Fail> {
    match begun(alloc, files) {
        Ok(keeper) => run_to_crash(alloc, keeper, keep),
        Err(files) => Ok(Leaving {
            files,
            told: 0,
            is_well: false,
        }),
    }
}

// Drops the files. It is a function of its own, because what it proves is much.
fn let_go(_files: Stopping) {}

// Whether what a crash left after so many accepted requests is opened again, and goes on.
// Of the six requests the first and the last are cuts. A cut is kept at once, after all that waits.
fn survives(
    alloc: Global,
    files: Stopping,
    told: usize,
    keep: Keep,
    whole: &Kept,
) -> Result<bool, Fail> {
    let next = [told, told.saturating_add(1)];
    let counts: &[usize] = match (keep, told) {
        (Keep::Waiting, 1..=5) => &[1, 5, 6],
        _ => &next,
    };
    match begun(alloc, files) {
        Ok(keeper) => goes_on_over(alloc, keeper, counts, whole),
        Err(files) => {
            let_go(files);
            Ok(false)
        }
    }
}

// Whether the season survives a stop at this call, and whether it ended well before.
fn survives_one(
    alloc: Global,
    stop: Stop,
    calls: u64,
    keep: Keep,
    whole: &Kept,
) -> Result<(bool, bool), Fail> {
    let Leaving {
        files,
        told,
        is_well,
    } = run_and_crash(alloc, empty_files(alloc, stop, calls), keep)?;
    Ok((survives(alloc, files, told, keep, whole)?, is_well))
}

// Whether the season survives a stop at each call, up to the number of calls that a run makes.
fn survives_each(alloc: Global, stop: Stop, keep: Keep) -> Result<bool, Fail> {
    let whole = whole(alloc)?;
    for calls in 0..100_000 {
        let (has_survived, is_well) = survives_one(alloc, stop, calls, keep, &whole)?;
        if !has_survived {
            return Ok(false);
        }
        if is_well {
            return Ok(true);
        }
    }
    Ok(false)
}

#[test]
fn the_log_stops(rt: HostRuntime) -> Result<(), Fail> {
    assert!(rt; survives_each(rt.alloc(), Stop::Log, Keep::AtOnce)?);
    Ok(())
}

#[test]
fn the_database_stops(rt: HostRuntime) -> Result<(), Fail> {
    assert!(rt; survives_each(rt.alloc(), Stop::Database, Keep::AtOnce)?);
    Ok(())
}

#[test]
fn the_log_stops_while_rows_wait(rt: HostRuntime) -> Result<(), Fail> {
    assert!(rt; survives_each(rt.alloc(), Stop::Log, Keep::Waiting)?);
    Ok(())
}
