// Keepers over databases in memory, and what is asked of them. Nothing here has a clause, and a trial makes few calls, so that its proof does not
// carry the state of each call on a database.
use keeper_mem::{KeepFault, Keeper};
use keeper_sqlite::SqliteKeeper;
use kept_rows::{AllotRow, AnswerRow, RaiseRow};
use office_base::{CandId, Choice, ProgId, SeatKind, StepKind};
use sqlite::{Connection, MemStore};
use std::alloc::Global;
use std::test::Fail;

/// The keeper of the trials.
pub type Store = SqliteKeeper<MemStore>;

/// What is put, or how much room for answers is taken.
#[derive(Clone, Copy)]
pub enum Put<'a> {
    Season(&'a [u8]),
    Room(u32),
    Answer(AnswerRow),
    Raise(RaiseRow),
    Cut(&'a [AllotRow]),
}

/// The records of a season.
#[derive(Clone, Copy)]
pub struct Records<'a> {
    pub season: &'a [u8],
    pub answers: &'a [AnswerRow],
    pub raises: &'a [RaiseRow],
    pub allots: &'a [AllotRow],
    pub cuts: u16,
}

/// A keeper over a database on which these statements were run.
pub fn over(alloc: Global, statements: &str) -> Result<Store, Fail> {
    let mut connection = Connection::open_in_memory(alloc)?;
    connection.execute_batch(statements)?;
    Ok(SqliteKeeper::new(connection))
}

/// A keeper with tables and no season.
pub fn empty(alloc: Global) -> Result<Store, Fail> {
    let mut keeper = over(alloc, "")?;
    keeper.make_tables()?;
    Ok(keeper)
}

/// The same keeper after these statements.
pub fn after(keeper: Store, statements: &str) -> Result<Store, Fail> {
    let mut connection = keeper.into_connection();
    connection.execute_batch(statements)?;
    Ok(SqliteKeeper::new(connection))
}

fn put_one(keeper: &mut Store, what: &Put<'_>) -> Result<(), KeepFault> {
    match what {
        Put::Season(text) => keeper.put_season(text),
        Put::Room(n) => keeper.reserve_answers(*n),
        Put::Answer(row) => keeper.put_answer(*row),
        Put::Raise(row) => keeper.put_raise(*row),
        Put::Cut(rows) => keeper.put_cut(rows),
    }
}

/// Whether all of these are put.
pub fn puts(keeper: &mut Store, records: &[Put<'_>]) -> bool {
    for what in records {
        if put_one(keeper, what).is_err() {
            return false;
        }
    }
    true
}

/// Whether this is refused as a fault.
pub fn refuses(keeper: &mut Store, what: &Put<'_>) -> bool {
    matches!(put_one(keeper, what), Err(KeepFault::Failed))
}

/// Whether a load is refused as a fault.
pub fn refuses_load(alloc: Global, keeper: &mut Store) -> bool {
    matches!(keeper.load(alloc), Err(KeepFault::Failed))
}

/// Whether no season is found and none is loaded.
pub fn holds_nothing(alloc: Global, keeper: &mut Store) -> bool {
    matches!(keeper.has_season(), Ok(false)) && matches!(keeper.load(alloc), Ok(None))
}

/// Whether a season is found and these are its records.
pub fn holds(alloc: Global, keeper: &mut Store, records: &Records<'_>) -> bool {
    matches!(keeper.has_season(), Ok(true)) && loads_as(alloc, keeper, records)
}

fn loads_as(alloc: Global, keeper: &mut Store, records: &Records<'_>) -> bool {
    match keeper.load(alloc) {
        Ok(Some(kept)) => {
            kept.season.as_slice() == records.season
                && kept.answers.as_slice() == records.answers
                && kept.raises.as_slice() == records.raises
                && kept.allots.as_slice() == records.allots
                && kept.cuts == records.cuts
        }
        Ok(None) | Err(_) => false,
    }
}

pub fn answer(window: u16, cand: u32, turn: u16, choice: Choice) -> AnswerRow {
    AnswerRow {
        window,
        cand: CandId(cand),
        turn,
        choice,
    }
}

pub fn raise(window: u16, prog: u16, step: StepKind, seats: u16) -> RaiseRow {
    RaiseRow {
        window,
        prog: ProgId(prog),
        step,
        seats,
    }
}

pub fn allot(round: u16, cand: u32, prog: u16, step: StepKind) -> AllotRow {
    AllotRow {
        round,
        cand: CandId(cand),
        prog: ProgId(prog),
        step: SeatKind::Under(step),
    }
}
