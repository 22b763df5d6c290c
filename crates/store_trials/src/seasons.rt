// The season of the trials, and the commands on it over any keeper. Nothing here has a clause, and each function makes few calls; that a keeper is let go
// is proved of any, which is less than of one over a database.
use command_answers::Status;
use keeper_mem::{Keeper, SureKeeper};
use kept_rows::Kept;
use office_base::{MemSink, MemSource};
use resume_command::resume_season;
use season_commands::run_season;
use std::alloc::Global;
use std::test::Fail;

// Five candidates and four programmes of one seat.
const SEASON: &str =
    "office bundle 1\n[season]\nrounds,2\nclerk,clerk0001\n[register]\nid,category,traits,token,m1,m2,m3,m4\n1,GEN,-,tok00001,1\n2,GEN,-,tok00002,2\n3,GEN,-,tok00003,3\n4,GEN,-,tok00004,4\n5,GEN,-,tok00005,5\n[matrix]\nprogramme,institute,list,step,seats,W,D,X,S,F,L\nA,I1,1,OPEN,1\nB,I2,1,OPEN,1\nC,I2,1,OPEN,1\nE,I3,1,OPEN,1\n[choices]\ncandidate,programmes\n1,A\n2,A,B\n3,B,C\n4,C,E\n5,E\n[requests]\n";

// Candidate 1 leaves, and everybody moves up.
const REQUESTS: &str =
    "cut,clerk,0\nanswer,1,1,1,1,withdraw\nanswer,2,2,1,1,float\nanswer,3,3,1,1,float\nanswer,4,4,1,1,float\ncut,clerk,1\n";

// How far the season is.
const STATE: &str = "state,nobody\n";

// More bytes than a command writes here, and as many as one read gives.
const ROOM: usize = 4096;

fn text_of(alloc: Global, sink: &MemSink) -> Result<String, Fail> {
    Ok(String::from_utf8(Vec::from_slice(alloc, sink.bytes())?)?)
}

// Runs the season with all requests: how that ends, what is written, and the keeper.
fn run<P: Keeper + Drop>(alloc: Global, keeper: P) -> Result<(Status, String, P), Fail> {
    let bundle = format!(in alloc; "{SEASON}{REQUESTS}")?;
    let mut source = MemSource::new(alloc, bundle.as_bytes(), ROOM, &[])?;
    let mut sink = MemSink::new(alloc, ROOM, &[])?;
    let (status, keeper) = run_season(alloc, &mut source, &mut sink, keeper);
    Ok((status, text_of(alloc, &sink)?, keeper))
}

// Goes on with these requests over what the keeper holds: how that ends, what is written, and the keeper.
fn resume<P: Keeper + Drop>(
    alloc: Global,
    requests: &str,
    keeper: P,
) -> Result<(Status, String, P), Fail> {
    let mut source = MemSource::new(alloc, requests.as_bytes(), ROOM, &[])?;
    let mut sink = MemSink::new(alloc, ROOM, &[])?;
    let (status, keeper) = resume_season(alloc, &mut source, &mut sink, keeper);
    Ok((status, text_of(alloc, &sink)?, keeper))
}

// The records that the keeper holds.
fn records<P: Keeper>(alloc: Global, keeper: &mut P) -> Result<Kept, Fail> {
    match keeper.load(alloc) {
        Ok(Some(kept)) => Ok(kept),
        Ok(None) | Err(_) => Err(Fail::new("no records are loaded")),
    }
}

/// The records that a keeper in memory holds after the season.
pub fn whole(alloc: Global) -> Result<Kept, Fail> {
    let (_, _, mut keeper) = run(alloc, SureKeeper::new(alloc))?;
    records(alloc, &mut keeper)
}

fn are_equal(one: &Kept, two: &Kept) -> bool {
    one.season.as_slice() == two.season.as_slice()
        && one.answers.as_slice() == two.answers.as_slice()
        && one.raises.as_slice() == two.raises.as_slice()
        && one.allots.as_slice() == two.allots.as_slice()
        && one.cuts == two.cuts
}

// How many requests these replies tell as accepted.
fn accepted(output: &str) -> usize {
    let mut count: usize = 0;
    for line in output.lines() {
        if line.starts_with("noted ") || line == "end round" {
            count = count.saturating_add(1);
        }
    }
    count
}

/// Runs the season with all requests. Returns whether it ends well, how many are reported as accepted, and the keeper.
pub fn run_told<P: Keeper + Drop>(alloc: Global, keeper: P) -> Result<(bool, usize, P), Fail> {
    let (status, output, keeper) = run(alloc, keeper)?;
    Ok((status == Status::Ok, accepted(&output), keeper))
}

// The state after so many accepted requests.
fn state_after(count: usize) -> &'static str {
    match count {
        0 => "state window 0 rounds 2 published 0\n",
        1..=5 => "state window 1 rounds 2 published 1\n",
        _ => "state window 2 rounds 2 published 2\n",
    }
}

// Whether these are so many answers and cuts, and the state is that of their window.
fn is_after(held: &Kept, output: &str, count: usize) -> bool {
    let kept = held.answers.len().saturating_add(usize::from(held.cuts));
    kept == count && output == state_after(count)
}

// Whether the keeper holds the whole season once all requests are asked again.
fn becomes_whole<P: Keeper + Drop>(alloc: Global, keeper: P, whole: &Kept) -> Result<bool, Fail> {
    let (status, _, mut keeper) = resume(alloc, REQUESTS, keeper)?;
    Ok(status == Status::Ok && are_equal(&records(alloc, &mut keeper)?, whole))
}

// Whether these records are those after one of these numbers of accepted requests.
fn is_after_one(held: &Kept, output: &str, counts: &[usize]) -> bool {
    for count in counts {
        if is_after(held, output, *count) {
            return true;
        }
    }
    false
}

/// Whether the keeper goes on after one of these numbers of accepted requests, up to the whole season. Before any there may be no season.
pub fn goes_on<P: Keeper + Drop>(
    alloc: Global,
    keeper: P,
    counts: &[usize],
    whole: &Kept,
) -> Result<bool, Fail> {
    let (status, output, mut keeper) = resume(alloc, STATE, keeper)?;
    if status != Status::Ok {
        return Ok(
            counts.first() == Some(&0) && output.as_str() == "fault: keeper holds no season\n",
        );
    }
    let held = records(alloc, &mut keeper)?;
    Ok(is_after_one(&held, &output, counts) && becomes_whole(alloc, keeper, whole)?)
}

/// The keeper after the whole season, where that ended well.
pub fn run_well<P: Keeper + Drop>(alloc: Global, keeper: P) -> Result<P, Fail> {
    let (is_well, _, keeper) = run_told(alloc, keeper)?;
    if is_well {
        Ok(keeper)
    } else {
        Err(Fail::new("the season did not end well"))
    }
}

/// Whether the keeper goes on after the second cut, and holds what a keeper in memory holds.
pub fn is_whole<P: Keeper + Drop>(alloc: Global, keeper: P) -> Result<bool, Fail> {
    let (status, output, mut keeper) = resume(alloc, STATE, keeper)?;
    let held = records(alloc, &mut keeper)?;
    let is_last = status == Status::Ok && is_after(&held, &output, 6);
    Ok(is_last && are_equal(&held, &whole(alloc)?))
}
