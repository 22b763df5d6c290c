// Requests that no row of a script spells: a turn 0, no seats or too many, and raises of the seats left unfilled.
ghost use Rattle.std.specs.Prelude.{IfOk, IfSome};
ghost use Rattle.season_file.specs.Season.{IsSeason};

use crate::commands::SEASON;
use keeper_mem::SureKeeper;
use office_asks::{Ask, By, Request};
use office_base::{CandId, Choice, Code, MemSink, MemSource, OutOfMemory, StepKind};
use request_rows::Script;
use round_cut::Office;
use season_commands::answer_all;
use season_file::Season;
use std::alloc::Global;
use std::test::Fail;

/// More bytes than any reply text of these trials.
const ROOM: usize = 100_000;

fn answer(window: u16) -> Request {
    let cand = CandId(1);
    Request {
        by: By::Candidate(cand),
        ask: Ask::Answer {
            cand,
            window,
            turn: 0,
            choice: Choice::Float,
        },
    }
}

fn raise(prog: Code, by: By, window: u16, step: StepKind, seats: u16) -> Request {
    let ask = Ask::Raise {
        window,
        prog,
        step,
        seats,
    };
    Request { by, ask }
}

/// Returns the requests, in window 1, and the reply to each.
fn requests(prog: Code) -> [(Request, &'static str); 9] {
    let (open, rest) = (StepKind::Open, StepKind::Dereserved);
    [
        (answer(1), "refused 8 Gap last 0\n"),
        (answer(0), "refused 6 Late now 1\n"),
        (answer(2), "refused 7 Ahead now 1\n"),
        (
            raise(prog, By::Clerk, 1, open, 0),
            "refused 17 Falling seats 1\n",
        ),
        (
            raise(prog, By::Clerk, 1, open, 4001),
            "refused 18 SeatLimit total 4\n",
        ),
        (raise(prog, By::Clerk, 1, rest, 2), "refused 16 StepFixed\n"),
        (raise(prog, By::Clerk, 0, rest, 2), "refused 6 Late now 1\n"),
        (
            raise(prog, By::Clerk, 2, rest, 0),
            "refused 7 Ahead now 1\n",
        ),
        (
            raise(prog, By::Nobody, 1, rest, 4001),
            "refused 3 Denied rule 4\n",
        ),
    ]
}

/// Returns the season of five candidates with the first cut as its only request, or None if it has a fault.
fn read(alloc: Global) -> Result<Option<(Season, Script)>, OutOfMemory>
    ensures { IfOk result (λ found. IfSome found (λ read. IsSeason read.0.text read.0)) }
{
    let text = format!(in alloc; "{SEASON}cut,clerk,0\n")?;
    let mut source = MemSource::new(alloc, text.as_bytes(), 64, &[])?;
    match Season::read(alloc, &mut source, true) {
        Ok(read) => Ok(Some(read)),
        Err(_) => Ok(None),
    }
}

/// Returns whether the office gives this reply to a request after the first cut, and accepts nothing.
fn is_refused(alloc: Global, request: Request, reply: &str) -> Result<bool, OutOfMemory> {
    let Some((season, script)) = read(alloc)? else {
        return Ok(false);
    };
    let mut replies = MemSink::new(alloc, ROOM, &[])?;
    let Ok(mut office) = Office::begin(alloc, season, SureKeeper::new(alloc)) else {
        return Ok(false);
    };
    let first = answer_all(alloc, &mut office, script.as_slice(), &mut replies);
    let second = answer_all(alloc, &mut office, &[request], &mut replies);
    let accepted = office.entries().len();
    let _keeper = office.into_keeper();
    Ok(
        first.is_ok()
            && second.is_ok()
            && replies.bytes().ends_with(reply.as_bytes())
            && accepted == 1,
    )
}

/// Returns whether all of these requests are refused in this way.
fn are_refused(alloc: Global, requests: &[(Request, &str)]) -> Result<bool, OutOfMemory> {
    for (request, reply) in requests {
        if !is_refused(alloc, *request, reply)? {
            return Ok(false);
        }
    }
    Ok(true)
}

#[test]
fn what_no_script_spells_is_refused(rt: HostRuntime) -> Result<(), Fail> {
    let Some(prog) = Code::read(b"A") else {
        return Err(Fail::new("no code"));
    };
    assert!(rt; are_refused(rt.alloc(), &requests(prog))?);
    Ok(())
}
