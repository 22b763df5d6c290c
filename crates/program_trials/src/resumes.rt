// The command `resume` over the records in memory that remain after each failing call.
// An office over given records. Damaged records are in cases/stores.txt.
use crate::commands::{REQUESTS, asked_season, first_replies, over};
use command_answers::Status;
use keeper_mem::{Keeper, MemKeeper};
use kept_rows::Kept;
use replays::{Resume, ResumeFault};
use round_cut::Office;
use std::alloc::Global;
use std::sync::Wait;
use std::test::Fail;
use std::thread::Threads;

// Returns the keeper of the season in which everybody moves up.
// The numbers are those of the calls of the sink and of the keeper that fail, 0 for none.
fn run_over<R: Threads + Wait + Sync>(
    rt: &R,
    alloc: Global,
    sink_at: u32,
    keeper_at: u32,
) -> Result<MemKeeper, Fail> {
    let season = asked_season(alloc)?;
    let keeper = MemKeeper::new(alloc, &[keeper_at])?;
    let words = ["run", "memory"];
    let (_, _, keeper) = over(rt, alloc, &words, season.as_str(), 40, 0, sink_at, keeper)?;
    Ok(keeper)
}

// Returns what such a keeper holds.
fn held_by(alloc: Global, mut keeper: MemKeeper) -> Result<Kept, Fail> {
    match keeper.load(alloc) {
        Ok(Some(kept)) => Ok(kept),
        _ => Err(Fail::new("nothing is kept")),
    }
}

fn are_same(one: &Kept, other: &Kept) -> bool {
    one.season.as_slice() == other.season.as_slice()
        && one.answers.as_slice() == other.answers.as_slice()
        && one.raises.as_slice() == other.raises.as_slice()
        && one.allots.as_slice() == other.allots.as_slice()
        && one.cuts == other.cuts
}

// Returns what is kept if the office resumes from what remains after these failing calls,
// and is asked everything again.
// Each request has its reply of the undisturbed run. If it was answered before, that reply is its receipt.
fn kept_again<R: Threads + Wait + Sync>(
    rt: &R,
    alloc: Global,
    sink_at: u32,
    keeper_at: u32,
) -> Result<Kept, Fail> {
    let replies = first_replies(alloc, 6, "")?;
    let keeper = run_over(rt, alloc, sink_at, keeper_at)?;
    let words = ["resume", "season.db"];
    let (ended, written, keeper) = over(rt, alloc, &words, REQUESTS, 7, 0, 0, keeper)?;
    if ended != Status::Ok || written.as_str() != replies.as_str() {
        return Err(Fail::new("another reply"));
    }
    held_by(alloc, keeper)
}

// Returns whether that leaves the tables of the undisturbed run.
fn is_undisturbed<R: Threads + Wait + Sync>(
    rt: &R,
    alloc: Global,
    sink_at: u32,
    keeper_at: u32,
) -> Result<bool, Fail> {
    let undisturbed = held_by(alloc, run_over(rt, alloc, 0, 0)?)?;
    let kept = kept_again(rt, alloc, sink_at, keeper_at)?;
    Ok(are_same(&kept, &undisturbed))
}

#[test]
fn an_office_goes_on_after_each_failing_call(rt: HostRuntime) -> Result<(), Fail> {
    for call in 4..=12 {
        assert!(rt; is_undisturbed(&rt, rt.alloc(), 0, call)?, "{call}");
    }
    // of the sink, one for each reply
    for call in 1..=6 {
        assert!(rt; is_undisturbed(&rt, rt.alloc(), call, 0)?, "{call}");
    }
    Ok(())
}

// Returns whether an office resumes from these records.
// Its window is theirs, it has an entry for each row and each cut, and the records stay.
fn goes_on_from(alloc: Global, kept: Kept, same: &Kept) -> Result<bool, Fail> {
    let keeper = MemKeeper::from_tables(alloc, kept, &[])?;
    match Office::resume(alloc, keeper) {
        Ok(office) => {
            let rows = same.answers.as_slice().len() + same.raises.as_slice().len();
            let is_right = office.now() == same.cuts
                && office.entries().len() == rows + usize::from(same.cuts);
            let held = held_by(alloc, office.into_keeper())?;
            Ok(is_right && are_same(&held, same))
        }
        Err(_) => Ok(false),
    }
}

// Returns whether no office resumes from a keeper without a season, and that is the fault.
fn none_goes_on(alloc: Global) -> Result<bool, Fail> {
    match Office::resume(alloc, MemKeeper::new(alloc, &[])?) {
        Ok(office) => {
            let _keeper = office.into_keeper();
            Ok(false)
        }
        Err((_, fault)) => Ok(fault == ResumeFault::NoSeason),
    }
}

#[test]
fn an_office_goes_on_from_given_records(rt: HostRuntime) -> Result<(), Fail> {
    let kept = held_by(rt.alloc(), run_over(&rt, rt.alloc(), 0, 0)?)?;
    let same = held_by(rt.alloc(), run_over(&rt, rt.alloc(), 0, 0)?)?;
    assert!(rt; goes_on_from(rt.alloc(), kept, &same)?);
    assert!(rt; none_goes_on(rt.alloc())?);
    Ok(())
}
