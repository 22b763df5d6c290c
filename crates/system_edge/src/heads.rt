// The head of a log: whether a database may open the log, or would take what it holds for nothing.
ghost use Rattle.std.specs.Prelude.{◌≡◌, ◌+◌, ◌≤◌, ◌<◌, ◌↔◌, IfOk, IsTrue, length};
ghost use Rattle.sqlite_wal.specs.Format.{IsSigned, be32};
ghost use Rattle.sqlite_wal.specs.Recovery.{header};
ghost use Rattle.sqlite_wal.specs.Reads.{IsClean, OnlyReads};
ghost use Rattle.system_edge.specs.Heads.{HasMagicEnd, HasSoundHead, IsMarkedEmpty};

use sqlite_disk::Disk;
use sqlite_wal::checksum_of;
use std::io;

// A head: the magic number, the format, the size of a page, a count, two salts, and the checksum of all these.
pub const HEAD_LEN: usize = 32;

// The length of a log that holds nothing: a head, and the first bytes of a frame.
pub const EMPTY_LEN: usize = 41;

/// Returns whether a database may open this log: it is empty, or its head is sound, or a checkpoint had begun to empty it.
/// A database takes any other log for an empty one and writes over it. The call only reads.
pub fn has_sound_head<D: Disk>(log: &mut D) -> io::Result<bool>
    requires { IsTrue (D.Disk.is_usable log.old) }
    ensures sound { IfOk result (λ found. IsClean D.Disk log.new
        → (IsTrue found ↔ HasSoundHead (D.Disk.seen log.old))) }
    ensures same { OnlyReads D.Disk log.old log.new }
{
    let len = log.len()?;
    if len == 0 {
        return Ok(true);
    }
    if len < HEAD_LEN {
        let mut first = [0; 1];
        log.read_at(0, &mut first)?;
        return Ok(first[0] == 0);
    }
    let head = read_head(log)?;
    Ok(is_signed(&head) || is_marked_empty(&head, len))
}

/// Reads the head of a log.
pub fn read_head<D: Disk>(log: &mut D) -> io::Result<[u8; 32]>
    requires { IsTrue (D.Disk.is_usable log.old) }
    ensures head { IfOk result (λ head. IsClean D.Disk log.new
        → header (D.Disk.seen log.old) ≡ head) }
    ensures same { OnlyReads D.Disk log.old log.new }
{
    let mut head = [0; HEAD_LEN];
    log.read_at(0, &mut head)?;
    Ok(head)
}

/// Returns whether a head begins with the magic number and ends with its own checksum.
pub fn is_signed(head: &[u8; 32]) -> bool
    ensures { IsTrue result ↔ IsSigned head.now }
{
    if head[0] != 0x37 || !has_magic_end(head) {
        return false;
    }
    let sum = checksum_of(head[3] == 0x83, (0, 0), &head[..24]);
    sum == (number_at(head, 24), number_at(head, 28))
}

// Returns whether a log of this length with this head is marked as empty: its first byte is 0.
// A longer log than an empty one still has the rest of the magic number then.
fn is_marked_empty(head: &[u8; 32], len: usize) -> bool
    ensures { IsTrue result ↔ IsMarkedEmpty head.now len }
{
    head[0] == 0 && (len <= EMPTY_LEN || has_magic_end(head))
}

// Returns whether the second to the fourth byte of a head are those of the magic number.
fn has_magic_end(head: &[u8; 32]) -> bool
    ensures { IsTrue result ↔ HasMagicEnd head.now }
{
    head[1] == 0x7f && head[2] == 0x06 && (head[3] == 0x82 || head[3] == 0x83)
}

/// Returns the number in four bytes of a log, the highest first.
pub fn number_at(bytes: &[u8], at: usize) -> u32
    requires { at + 4 ≤ length bytes.now }
    ensures { result ≡ be32 bytes.now at }
{
    bytes[at] as u32 * 0x100_0000
        + bytes[at + 1] as u32 * 0x1_0000
        + bytes[at + 2] as u32 * 0x100
        + bytes[at + 3] as u32
}
