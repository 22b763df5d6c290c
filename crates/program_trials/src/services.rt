// The command `serve` at a door in memory that fails.
// What connections ask is tested in serve_trials, and over sockets in checks/.
use crate::commands::{SEASON, at_door};
use command_answers::Status;
use keeper_mem::SureKeeper;
use office_links::{MemDoor, MemLink};
use std::test::Fail;

#[test]
fn a_door_that_fails_is_told_after_how_far_the_office_is(rt: HostRuntime) -> Result<(), Fail> {
    let alloc = rt.alloc();
    let mut links = Vec::new(alloc);
    links.push(MemLink::new(alloc, b"", 1, 100, &[])?)?;
    let door = MemDoor::new(alloc, links, &[1])?;
    let words = ["serve", "1", "1", "new", "8080", "memory"];
    let Some(season) = SEASON.strip_suffix("[requests]\n") else {
        return Err(Fail::new("no requests"));
    };
    let keeper = SureKeeper::new(alloc);
    let (ended, written) = at_door(&rt, alloc, &words, season, keeper, door)?;
    assert!(rt; ended == Status::DoorFault);
    let output = "state window 0 rounds 2 published 0\nentries 0\nfault: door\n";
    assert!(rt; written.as_str() == output);
    Ok(())
}
