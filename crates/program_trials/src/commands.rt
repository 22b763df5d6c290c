// The commands on worked inputs and on a failing outside, over objects in memory.
//
// These modules run the program over objects in memory by `over` alone.
// A test passes it a row of a table, and compares what it returns.
ghost use Rattle.std.specs.Prelude.{◌<◌, ◌≤◌, length};

use command_answers::Status;
use keeper_mem::{Keeper, MemKeeper, SureKeeper};
use office_base::{MemSink, MemSource, Sink, Source, SureSink, SureSource, Words};
use office_commands::allocate;
use office_links::MemDoor;
use standard_streams::{StandardInput, StandardOutput};
use std::alloc::Global;
use std::io;
use std::sync::Wait;
use std::test::Fail;
use std::thread::Threads;

fn words_of(alloc: Global, text: &[&str]) -> Result<Words, Fail> {
    let mut words = Words::new(alloc);
    for word in text {
        words.push(word)?;
    }
    Ok(words)
}

// Runs the words with no door, as for a command that serves no office.
fn without_doors<R: Threads + Wait + Sync, S: Source, K: Sink, P: Keeper + Send>(
    rt: &R,
    alloc: Global,
    words: &Words,
    source: &mut S,
    sink: &mut K,
    keeper: P,
) -> (Status, P) {
    let mut none: [MemDoor; 0] = [];
    allocate(rt, alloc, words, source, sink, keeper, &mut none)
}

// More bytes than any command of these tests writes.
const ROOM: usize = 1_000_000;

// Runs the words over a keeper, on an input in pieces of this number of bytes.
// It returns the status, what is written, and the keeper.
// The numbers are those of the calls of the source and of the sink that fail, 0 for none.
pub(crate) fn over<R: Threads + Wait + Sync, P: Keeper + Drop + Send>(
    rt: &R,
    alloc: Global,
    words: &[&str],
    input: &str,
    piece: usize,
    source_at: u32,
    sink_at: u32,
    keeper: P,
) -> Result<(Status, String, P), Fail>
    requires { 0 < piece }
{
    let words = words_of(alloc, words)?;
    let mut source = MemSource::new(alloc, input.as_bytes(), piece, &[source_at])?;
    let mut sink = MemSink::new(alloc, ROOM, &[sink_at])?;
    let (status, keeper) = without_doors(rt, alloc, &words, &mut source, &mut sink, keeper);
    let output = String::from_utf8(Vec::from_slice(alloc, sink.bytes())?)?;
    Ok((status, output, keeper))
}

// Runs the words on an input, over a keeper, at one door. It returns the status and what is written.
pub(crate) fn at_door<R: Threads + Wait + Sync, P: Keeper + Drop + Send>(
    rt: &R,
    alloc: Global,
    words: &[&str],
    input: &str,
    keeper: P,
    door: MemDoor,
) -> Result<(Status, String), Fail>
    requires { length door.coming ≤ 100000 }
{
    let words = words_of(alloc, words)?;
    let mut source = MemSource::new(alloc, input.as_bytes(), 40, &[])?;
    let mut sink = MemSink::new(alloc, ROOM, &[])?;
    let mut doors = [door];
    let (status, _) = allocate(
        rt,
        alloc,
        &words,
        &mut source,
        &mut sink,
        keeper,
        &mut doors,
    );
    let output = String::from_utf8(Vec::from_slice(alloc, sink.bytes())?)?;
    Ok((status, output))
}

// The season of five candidates up to its requests.
pub(crate) const SEASON: &str =
    "office bundle 1\n[season]\nrounds,2\nclerk,clerk0001\n[register]\nid,category,traits,token,m1,m2,m3,m4\n1,GEN,-,tok00001,1\n2,GEN,-,tok00002,2\n3,GEN,-,tok00003,3\n4,GEN,-,tok00004,4\n5,GEN,-,tok00005,5\n[matrix]\nprogramme,institute,list,step,seats,W,D,X,S,F,L\nA,I1,1,OPEN,1\nB,I2,1,OPEN,1\nC,I2,1,OPEN,1\nE,I3,1,OPEN,1\n[choices]\ncandidate,programmes\n1,A\n2,A,B\n3,B,C\n4,C,E\n5,E\n[requests]\n";

const EMPTY_SHEET: &str = "step sheet 1\nseats,0\n";

#[test]
fn the_source_of_a_command_fails(rt: HostRuntime) -> Result<(), Fail> {
    let alloc = rt.alloc();
    for (command, input) in [("step", EMPTY_SHEET), ("check", SEASON)] {
        let keeper = SureKeeper::new(alloc);
        let (ended, line, _) = over(&rt, alloc, &[command], input, 3, 2, 0, keeper)?;
        assert!(rt; ended == Status::ReadFault, "{command}");
        assert!(rt; line.as_str() == "fault: read\n", "{command}");
    }
    Ok(())
}

#[test]
fn the_sink_of_a_command_fails(rt: HostRuntime) -> Result<(), Fail> {
    let alloc = rt.alloc();
    let keeper = SureKeeper::new(alloc);
    let (ended, _, _) = over(&rt, alloc, &["step"], EMPTY_SHEET, 4, 0, 1, keeper)?;
    assert!(rt; ended == Status::WriteFault);
    Ok(())
}

#[test]
fn nothing_of_the_outside_fails(rt: HostRuntime) -> Result<(), Fail> {
    let alloc = rt.alloc();
    let words = words_of(alloc, &["step"])?;
    let mut source = SureSource::new(alloc, EMPTY_SHEET.as_bytes(), 4)?;
    let keeper = SureKeeper::new(alloc);
    let (ended, _) = without_doors(
        &rt,
        alloc,
        &words,
        &mut source,
        &mut SureSink::new(),
        keeper,
    );
    assert!(rt; ended == Status::Ok);
    Ok(())
}

// A reader of bytes in pieces of two, whose call of this number fails once.
#[derive(Drop)]
struct Pieces {
    bytes: &'static [u8],
    calls: u64,
    fail_at: u64,
}

impl io::Read for Pieces {
    fn read(&mut self, buf: &mut [u8]) -> io::Result<usize> {
        self.calls = self.calls.saturating_add(1);
        if self.calls == self.fail_at {
            return Err(io::Error::from(io::ErrorKind::TimedOut));
        }
        let count = buf.len().min(self.bytes.len()).min(2);
        buf[..count].copy_from_slice(&self.bytes[..count]);
        self.bytes = &self.bytes[count..];
        Ok(count)
    }
}

// A writer that takes three bytes at a time, and whose call of this number fails once.
// It fails with an error, or by taking nothing.
#[derive(Drop)]
struct Slow {
    bytes: Vec<u8>,
    calls: u64,
    fail_at: u64,
    nothing_at: u64,
}

impl io::Write for Slow {
    fn write(&mut self, buf: &[u8]) -> io::Result<usize> {
        self.calls = self.calls.saturating_add(1);
        if self.calls == self.fail_at {
            return Err(io::Error::from(io::ErrorKind::BrokenPipe));
        }
        if self.calls == self.nothing_at {
            return Ok(0);
        }
        let count = buf.len().min(3);
        self.bytes.extend_from_slice(&buf[..count])?;
        Ok(count)
    }

    fn flush(&mut self) -> io::Result<()> {
        Ok(())
    }
}

// The numbers of the calls of a reader and a writer that fail, 0 for none.
// Then the status, and how much is written of what.
type Failing = (u64, u64, u64, Status, &'static str, usize);

const NO_SEATS: &str = "step seats 0 candidates 0 admitted 0\nhonoured 0\nend\n";

const FAILING: [Failing; 9] = [
    (0, 0, 0, Status::Ok, NO_SEATS, 52),
    (1, 0, 0, Status::ReadFault, "fault: read\n", 12),
    (5, 0, 0, Status::ReadFault, "fault: read\n", 12),
    // the read that finds the end
    (12, 0, 0, Status::ReadFault, "fault: read\n", 12),
    (0, 1, 0, Status::WriteFault, NO_SEATS, 0),
    (0, 4, 0, Status::WriteFault, NO_SEATS, 9),
    (0, 0, 4, Status::WriteFault, NO_SEATS, 9),
    (0, 17, 0, Status::WriteFault, NO_SEATS, 48),
    (5, 3, 0, Status::WriteFault, "fault: read\n", 6),
];

// Returns whether `step` over such streams ends with that status, and writes that much.
fn fails_once<R: Threads + Wait + Sync>(
    rt: &R,
    alloc: Global,
    at_once: bool,
    failing: Failing,
) -> Result<bool, Fail> {
    let (read, write, nothing, status, text, count) = failing;
    let words = words_of(alloc, &["step"])?;
    let mut source = StandardInput::new(Pieces {
        bytes: EMPTY_SHEET.as_bytes(),
        calls: 0,
        fail_at: read,
    });
    let mut writer = Slow {
        bytes: Vec::new(alloc),
        calls: 0,
        fail_at: write,
        nothing_at: nothing,
    };
    let Ok(mut sink) = StandardOutput::new(alloc, &mut writer, at_once) else {
        return Err(Fail::new("no block"));
    };
    let keeper = SureKeeper::new(alloc);
    let (ended, _) = without_doors(rt, alloc, &words, &mut source, &mut sink, keeper);
    let (_, given) = sink.finish();
    let ended = if given.is_ok() {
        ended
    } else {
        Status::WriteFault
    };
    Ok(ended == status && Some(writer.bytes.as_slice()) == text.as_bytes().get(..count))
}

#[test]
fn the_real_streams_fail_once(rt: HostRuntime) -> Result<(), Fail> {
    for failing in FAILING {
        for at_once in [false, true] {
            assert!(rt; fails_once(&rt, rt.alloc(), at_once, failing)?);
        }
    }
    Ok(())
}

// What is asked in the season of five candidates, and the reply to each request.
// Candidate 1 leaves, and everybody moves up.
pub(crate) const REQUESTS: &str =
    "cut,clerk,0\nanswer,1,1,1,1,withdraw\nanswer,2,2,1,1,float\nanswer,3,3,1,1,float\nanswer,4,4,1,1,float\ncut,clerk,1\n";

const REPLIES: [&str; 6] = [
    "published 1 seated 4\nround 1 seated 4\nallot 1 A OPEN\nallot 2 B OPEN\nallot 3 C OPEN\nallot 4 E OPEN\nend round\n",
    "noted 1 window 1 turn 1 withdraw\n",
    "noted 2 window 1 turn 1 float\n",
    "noted 3 window 1 turn 1 float\n",
    "noted 4 window 1 turn 1 float\n",
    "published 2 seated 4\nround 2 seated 4\nallot 2 A OPEN\nallot 3 B OPEN\nallot 4 C OPEN\nallot 5 E OPEN\nend round\n",
];

pub(crate) fn asked_season(alloc: Global) -> Result<String, Fail> {
    Ok(format!(in alloc; "{SEASON}{REQUESTS}")?)
}

// Returns whether the words, run over these bytes and records in memory, end with this status and output,
// and leave these numbers of answers and cuts kept, or no season.
// The numbers are those of the calls of the source, the sink and the keeper that fail, 0 for none.
pub(crate) fn ends_so<R: Threads + Wait + Sync>(
    rt: &R,
    alloc: Global,
    words: &[&str],
    input: &str,
    [source_at, sink_at, keeper_at]: [u32; 3],
    status: Status,
    output: &str,
    kept: Option<(usize, u16)>,
) -> Result<bool, Fail> {
    let keeper = MemKeeper::new(alloc, &[keeper_at])?;
    let (ended, written, mut keeper) = over(
        rt, alloc, words, input, 40, source_at, sink_at, keeper,
    )?;
    let held = match keeper.load(alloc) {
        Ok(Some(held)) => Some((held.answers.len(), held.cuts)),
        Ok(None) => None,
        Err(_) => return Err(Fail::new("nothing can be loaded")),
    };
    Ok(ended == status && written.as_str() == output && held == kept)
}

// Returns the replies to the first requests, and a line.
pub(crate) fn first_replies(alloc: Global, count: usize, line: &str) -> Result<String, Fail> {
    let mut text = String::new(alloc);
    for (at, reply) in REPLIES.iter().enumerate() {
        if at < count {
            text.push_str(reply)?;
        }
    }
    text.push_str(line)?;
    Ok(text)
}

// The answers and cuts that are kept after each number of requests of the season of five candidates.
const KEPT: [(usize, u16); 7] = [(0, 0), (0, 1), (1, 1), (2, 1), (3, 1), (4, 1), (4, 2)];

// The calls of the source, the sink and the keeper that fail in that season.
// Then the status, how many replies are written, and which line after them.
// Then what is kept, as an item of KEPT, or no season.
type Failed = ([u32; 3], Status, usize, &'static str, Option<usize>);

const FAILED: [Failed; 23] = [
    // there is no fifteenth read and no seventh write;
    // the thirteenth call of the keeper is that of `ends_so`, which looks at what is kept
    ([0, 0, 0], Status::Ok, 6, "", Some(6)),
    ([15, 0, 0], Status::Ok, 6, "", Some(6)),
    ([0, 7, 0], Status::Ok, 6, "", Some(6)),
    ([0, 0, 14], Status::Ok, 6, "", Some(6)),
    // three calls of the keeper begin the office; each cut and the withdrawal are one call;
    // the other answers take room first
    ([0, 0, 1], Status::KeeperFault, 0, "fault: keeper\n", None),
    ([0, 0, 2], Status::KeeperFault, 0, "fault: keeper\n", None),
    ([0, 0, 3], Status::KeeperFault, 0, "fault: keeper\n", None),
    (
        [0, 0, 4],
        Status::KeeperFault,
        0,
        "fault: keeper\n",
        Some(0),
    ),
    (
        [0, 0, 5],
        Status::KeeperFault,
        1,
        "fault: keeper\n",
        Some(1),
    ),
    (
        [0, 0, 6],
        Status::KeeperFault,
        2,
        "fault: keeper\n",
        Some(2),
    ),
    (
        [0, 0, 7],
        Status::KeeperFault,
        2,
        "fault: keeper\n",
        Some(2),
    ),
    (
        [0, 0, 8],
        Status::KeeperFault,
        3,
        "fault: keeper\n",
        Some(3),
    ),
    (
        [0, 0, 9],
        Status::KeeperFault,
        3,
        "fault: keeper\n",
        Some(3),
    ),
    (
        [0, 0, 10],
        Status::KeeperFault,
        4,
        "fault: keeper\n",
        Some(4),
    ),
    (
        [0, 0, 11],
        Status::KeeperFault,
        4,
        "fault: keeper\n",
        Some(4),
    ),
    (
        [0, 0, 12],
        Status::KeeperFault,
        5,
        "fault: keeper\n",
        Some(5),
    ),
    ([0, 1, 0], Status::WriteFault, 0, "", Some(1)),
    ([0, 2, 0], Status::WriteFault, 1, "", Some(2)),
    ([0, 3, 0], Status::WriteFault, 2, "", Some(3)),
    ([0, 4, 0], Status::WriteFault, 3, "", Some(4)),
    ([0, 5, 0], Status::WriteFault, 4, "", Some(5)),
    ([0, 6, 0], Status::WriteFault, 5, "", Some(6)),
    // a fault's line that cannot be written hides the fault of the keeper
    ([0, 3, 6], Status::WriteFault, 2, "", Some(2)),
];

// Returns whether that season ends in this way if these calls fail.
fn fails_so<R: Threads + Wait + Sync>(rt: &R, alloc: Global, failed: Failed) -> Result<bool, Fail> {
    let (fail_at, status, count, line, kept) = failed;
    let season = asked_season(alloc)?;
    let output = first_replies(alloc, count, line)?;
    let kept = match kept {
        Some(at) => KEPT.get(at).copied(),
        None => None,
    };
    ends_so(
        rt,
        alloc,
        &["run", "memory"],
        season.as_str(),
        fail_at,
        status,
        output.as_str(),
        kept,
    )
}

#[test]
fn the_outside_of_a_run_fails_at_each_call(rt: HostRuntime) -> Result<(), Fail> {
    for failed in FAILED {
        assert!(rt; fails_so(&rt, rt.alloc(), failed)?, "{:?}", failed.0);
    }
    // thirteen reads take the bytes, and the fourteenth finds their end
    for call in 1..=14 {
        let failed = ([call, 0, 0], Status::ReadFault, 0, "fault: read\n", None);
        assert!(rt; fails_so(&rt, rt.alloc(), failed)?, "{call}");
    }
    Ok(())
}
