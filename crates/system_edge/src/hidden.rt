// Whether damage behind the head of a log hides commits: a database ends the log at the first frame that does not check,
// takes what is before it, and cuts off the rest.
//
// What a kill leaves is not refused. The database appends to its log in one of two ways.
// - It writes all frames of a commit but the first byte of the first salt, syncs, writes this byte, and syncs.
//   Until the disk has the whole commit, this byte is another one. So a first frame with the right salts begins a whole commit.
// - It writes a frame that counts what the commit lacks, the frames of the commit, and syncs once.
//   It does so only when the disk has all commits before. So if such a frame checks, all frames before it did.
// Damage of the last commit is not found where that commit counts itself: it looks like a torn write.
ghost use Rattle.std.specs.Prelude.{◌≡◌, ◌+◌, ◌*◌, ◌^◌, ◌<◌, ◌≤◌, ◌↔◌, ℕ, IfOk, IsTrue, length};
ghost use Rattle.sqlite_wal.specs.Format.{IsFrame, part, stored_sum};
ghost use Rattle.sqlite_wal.specs.PageSize.{bytes_of};
ghost use Rattle.sqlite_wal.specs.Reads.{IsClean, OnlyReads};
ghost use Rattle.sqlite_wal.specs.Recovery.{Replays, frame_at, header};
ghost use Rattle.system_edge.specs.Heads.{HasSoundHead};
ghost use Rattle.system_edge.specs.Hidden.{EndsCommit, HidesCommit, HidesNothing, IsRevealed};

use crate::heads::{HEAD_LEN, has_sound_head, is_signed, number_at, read_head};
use sqlite_disk::Disk;
use sqlite_wal::{PageSize, checksum_of, probe_frames};
use std::alloc::Global;
use std::io;

// The length of what is before the page in a frame: its number, the size of the database, two salts and a checksum.
const FRONT_LEN: usize = 24;

// The number of no page. A frame that has it counts what the frames of its commit lack.
const COUNT_PAGE: u32 = 0xff00_0000;

// A log has at most so many frames.
const MAX_FRAMES: usize = 0xffff_fffe;

/// Returns whether a database may open this log: its head is sound, and it hides no commit. The call only reads.
pub fn is_sound<D: Disk>(alloc: Global, log: &mut D) -> io::Result<bool>
    requires { IsTrue (D.Disk.is_usable log.old) }
    ensures sound { IfOk result (λ found. IsClean D.Disk log.new → (IsTrue found
        ↔ HasSoundHead (D.Disk.seen log.old) × HidesNothing (D.Disk.seen log.old))) }
    ensures same { OnlyReads D.Disk log.old log.new }
{
    if !has_sound_head(log)? {
        return Ok(false);
    }
    hides_nothing(alloc, log)
}

// Returns whether the log shows no commit behind those that a database would take.
fn hides_nothing<D: Disk>(alloc: Global, log: &mut D) -> io::Result<bool>
    requires { IsTrue (D.Disk.is_usable log.old) }
    ensures nothing { IfOk result (λ found. IsClean D.Disk log.new
        → (IsTrue found ↔ HidesNothing (D.Disk.seen log.old))) }
    ensures same { OnlyReads D.Disk log.old log.new }
{
    if log.len()? < HEAD_LEN {
        return Ok(true);
    }
    let head = read_head(log)?;
    if !is_signed(&head) {
        return Ok(true);
    }
    let Some(size) = PageSize::new(number_at(&head, 8) as usize) else {
        return Err(io::ErrorKind::InvalidData.into());
    };
    let taken = frames_taken(alloc, log, size)?;
    Ok(!hides_commit(alloc, log, &head, size, taken)?)
}

// Returns how many frames a database would take.
fn frames_taken<D: Disk>(alloc: Global, log: &mut D, size: PageSize) -> io::Result<usize>
    requires { IsTrue (D.Disk.is_usable log.old) }
    ensures taken { IfOk result (λ k. IsClean D.Disk log.new
        → Replays (bytes_of size) (D.Disk.seen log.old) k) }
    ensures few { IfOk result (λ k. k ≤ 0xffff_fffe) }
    ensures same { OnlyReads D.Disk log.old log.new }
{
    let Ok(numbers) = probe_frames(alloc, log, size) else {
        return Err(io::ErrorKind::InvalidData.into());
    };
    if MAX_FRAMES < numbers.len() {
        return Err(io::ErrorKind::InvalidData.into());
    }
    Ok(numbers.len())
}

// Returns whether the log shows a commit behind the frames that are taken.
fn hides_commit<D: Disk>(
    alloc: Global,
    log: &mut D,
    head: &[u8; 32],
    size: PageSize,
    taken: usize,
) -> io::Result<bool>
    requires usable { IsTrue (D.Disk.is_usable log.old) }
    requires head { IsClean D.Disk log.old → header (D.Disk.seen log.old) ≡ head.now }
    requires few { taken ≤ 0xffff_fffe }
    ensures hides { IfOk result (λ found. IsClean D.Disk log.new
        → (IsTrue found ↔ HidesCommit (bytes_of size) (D.Disk.seen log.old) taken)) }
    ensures same { OnlyReads D.Disk log.old log.new }
{
    let page_size = size.bytes();
    let Ok(mut frame) = vec![in alloc; 0; FRONT_LEN + page_size] else {
        return Err(io::ErrorKind::OutOfMemory.into());
    };
    let len = log.len()?;
    if is_revealed(log, len, head, page_size, taken, &mut frame)? {
        return Ok(true);
    }
    has_later_count(log, len, head, page_size, taken, &mut frame)
}

// Returns the place of a frame.
fn frame_offset(page_size: usize, i: usize) -> usize
    requires size { page_size ≤ 65536 }
    requires few { i ≤ 0xffff_fffe }
    ensures at { result ≡ frame_at page_size i }
    ensures small { result < 2 ^ 51 }
{
    HEAD_LEN + i * (FRONT_LEN + page_size)
}

// Returns whether the first frame that is not taken begins a commit that was on the disk.
fn is_revealed<D: Disk>(
    log: &mut D,
    len: usize,
    head: &[u8; 32],
    page_size: usize,
    taken: usize,
    frame: &mut [u8],
) -> io::Result<bool>
    requires usable { IsTrue (D.Disk.is_usable log.old) }
    requires len { IsClean D.Disk log.old → len ≡ length (D.Disk.seen log.old) }
    requires head { IsClean D.Disk log.old → header (D.Disk.seen log.old) ≡ head.now }
    requires small { (page_size ≤ 65536) × (taken ≤ 0xffff_fffe) }
    requires frame { length frame.old ≡ 24 + page_size }
    ensures revealed { IfOk result (λ found. IsClean D.Disk log.new
        → (IsTrue found ↔ IsRevealed page_size (D.Disk.seen log.old) taken)) }
    ensures same { OnlyReads D.Disk log.old log.new }
{
    let at = frame_offset(page_size, taken);
    if len < at + frame.len() {
        return Ok(false);
    }
    log.read_at(at, frame)?;
    let page = number_at(frame, 0);
    if page == 0 || page == COUNT_PAGE {
        return Ok(false);
    }
    Ok(has_salts(head, frame))
}

// Returns whether a frame behind the first one that is not taken counts a commit.
fn has_later_count<D: Disk>(
    log: &mut D,
    len: usize,
    head: &[u8; 32],
    page_size: usize,
    taken: usize,
    frame: &mut [u8],
) -> io::Result<bool>
    requires usable { IsTrue (D.Disk.is_usable log.old) }
    requires len { IsClean D.Disk log.old → len ≡ length (D.Disk.seen log.old) }
    requires head { IsClean D.Disk log.old → header (D.Disk.seen log.old) ≡ head.now }
    requires small { (page_size ≤ 65536) × (taken ≤ 0xffff_fffe) }
    requires frame { length frame.old ≡ 24 + page_size }
    ensures later { IfOk result (λ found. IsClean D.Disk log.new
        → (IsTrue found ↔ ((i : ℕ) × (taken ≤ i) × EndsCommit page_size (D.Disk.seen log.old) i))) }
    ensures same { OnlyReads D.Disk log.old log.new }
{
    let mut last = taken;
    let mut at = frame_offset(page_size, taken);
    while at < len && 2 * frame.len() <= len - at {
        if ends_commit(log, head, page_size, last, at, frame)? {
            return Ok(true);
        }
        at += frame.len();
        last += 1;
    }
    Ok(false)
}

// Returns whether the frame behind this one counts a commit, and checks.
fn ends_commit<D: Disk>(
    log: &mut D,
    head: &[u8; 32],
    page_size: usize,
    last: usize,
    at: usize,
    frame: &mut [u8],
) -> io::Result<bool>
    requires usable { IsTrue (D.Disk.is_usable log.old) }
    requires head { IsClean D.Disk log.old → header (D.Disk.seen log.old) ≡ head.now }
    requires place { (at ≡ frame_at page_size last) × (at + 2 * (24 + page_size) < 2 ^ 64) }
    requires within { IsClean D.Disk log.old → at + 2 * (24 + page_size) ≤ length (D.Disk.seen log.old) }
    requires frame { length frame.old ≡ 24 + page_size }
    ensures ends { IfOk result (λ found. IsClean D.Disk log.new
        → (IsTrue found ↔ EndsCommit page_size (D.Disk.seen log.old) last)) }
    ensures same { OnlyReads D.Disk log.old log.new }
{
    log.read_at(at + frame.len(), frame)?;
    if number_at(frame, 0) != COUNT_PAGE {
        return Ok(false);
    }
    let before = read_sum(log, at + 16)?;
    Ok(is_frame(head, before, frame))
}

// Reads a checksum.
fn read_sum<D: Disk>(log: &mut D, at: usize) -> io::Result<(u32, u32)>
    requires { IsTrue (D.Disk.is_usable log.old) }
    ensures sum { IfOk result (λ sum. IsClean D.Disk log.new
        → sum ≡ stored_sum (D.Disk.seen log.old) at) }
    ensures same { OnlyReads D.Disk log.old log.new }
{
    let mut sum = [0; 8];
    log.read_at(at, &mut sum)?;
    Ok((number_at(&sum, 0), number_at(&sum, 4)))
}

// Returns whether a frame has the salts of this head.
fn has_salts(head: &[u8; 32], frame: &[u8]) -> bool
    requires { 24 ≤ length frame.now }
    ensures { IsTrue result ↔ (part frame.now 8 8 ≡ part head.now 16 8) }
{
    frame[8..16] == head[16..24]
}

// Returns whether a frame checks under this head and behind this checksum.
fn is_frame(head: &[u8; 32], before: (u32, u32), frame: &[u8]) -> bool
    requires { 24 ≤ length frame.now }
    ensures { IsTrue result ↔ IsFrame head.now before frame.now }
{
    if !has_salts(head, frame) || number_at(frame, 0) == 0 {
        return false;
    }
    let big = head[3] == 0x83;
    let front = checksum_of(big, before, &frame[..8]);
    checksum_of(big, front, &frame[FRONT_LEN..]) == (number_at(frame, 16), number_at(frame, 20))
}
