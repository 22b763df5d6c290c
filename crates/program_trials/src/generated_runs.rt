// The command `generate` with `run`: what it writes and keeps of a season that a person followed by hand.
// Some calls of the outside fail.
use crate::commands::{ends_so, over};
use command_answers::Status;
use keeper_mem::SureKeeper;
use std::alloc::Global;
use std::test::Fail;

// Two candidates have the seats of their first choices in all rounds.
// One answers float four times, then slide, then float, which is wider.
// The other answers float twice, then slide, then float three times.
const TWO: &str =
    "generated 2 seed 1\nround 1 seated 2\nround 2 seated 2\nround 3 seated 2\nround 4 seated 2\nround 5 seated 2\n\
    round 6 seated 2\nnoted 8 refused 4\nfinal admitted 2\n";

const TWO_WORDS: [&str; 4] = ["generate", "2", "1", "run"];

#[test]
fn the_outside_of_a_generated_run_fails(rt: HostRuntime) -> Result<(), Fail> {
    let fault = "fault: keeper\n";
    let cases = [
        ([0, 0, 0], Status::Ok, TWO, Some((8, 7))),
        // if the keeper fails, nothing but that is written
        ([0, 0, 1], Status::KeeperFault, fault, None),
        ([0, 0, 10], Status::KeeperFault, fault, Some((2, 2))),
        // if the sink fails, all requests are answered and kept
        ([0, 1, 0], Status::WriteFault, "", Some((8, 7))),
    ];
    for (fail_at, status, output, kept) in cases {
        assert!(rt;
            ends_so(
                &rt,
                rt.alloc(),
                &TWO_WORDS,
                "",
                fail_at,
                status,
                output,
                kept
            )?
        );
    }
    Ok(())
}

#[test]
fn no_generated_season_takes_the_place_of_a_kept_one(rt: HostRuntime) -> Result<(), Fail> {
    let alloc = rt.alloc();
    let keeper = SureKeeper::new(alloc);
    let (ended, _, keeper) = over(&rt, alloc, &TWO_WORDS, "", 1, 0, 0, keeper)?;
    assert!(rt; ended == Status::Ok);
    let (ended, line, _) = over(&rt, alloc, &TWO_WORDS, "", 1, 0, 0, keeper)?;
    assert!(rt; ended == Status::BadInput);
    assert!(rt; line.as_str() == "fault: keeper holds a season\n");
    Ok(())
}
