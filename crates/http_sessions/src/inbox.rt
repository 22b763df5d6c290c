// Bytes that came over a link and are not used up yet.
ghost use Rattle.std.specs.Prelude.{◌≡◌, ℕ, ◌+◌, ◌-◌, ◌<◌, ◌≤◌, List, Option, [], ◌++◌, length, take, drop, IfOk, IsErr, OnErr};
ghost use Rattle.office_base.specs.Outside.{Fails, IsAtEnd, TakesPrefix, Took};
ghost use Rattle.http_wire.specs.Limits.{most_message_bytes};

use office_base::{Failed, OutOfMemory};
use office_links::Link;
use std::alloc::Global;
use std::marker::Model;

/// The most bytes of a message.
const MOST_MESSAGE_BYTES: usize = 12_288;

/// Room for 12,288 bytes, of which those from `start` to `end` are held. Contracts see it as these.
#[derive(Drop)]
pub(crate) struct Inbox {
    bytes: Vec<u8>,
    start: usize,
    end: usize,
}

impl Model for Inbox {
    ghost use Rattle.std.specs.Prelude.{List, ℕ};
    ghost use Rattle.http_sessions.specs.Held.{held, IsPlaced};

    ghost Value = { List ℕ };

    ghost view = { held };

    ghost invariant = { IsPlaced };
}

// Reads once behind the first bytes.
fn read_behind<L: Link>(link: &mut L, bytes: &mut [u8], end: usize) -> Result<usize, Failed>
    requires { end < length bytes.old }
    ensures within { IfOk result (λ n. end + n ≤ length bytes.old) }
    ensures front { take end bytes.new ≡ take end bytes.old }
    ensures taken { IfOk result (λ n.
        TakesPrefix n (L.left link.old) (L.left link.new) (drop end bytes.new)) }
    ensures ended { IfOk result (λ n. n ≡ 0 → IsAtEnd (L.left link.new)) }
    ensures kept { OnErr result (L.left link.new ≡ L.left link.old) }
    ensures apart { L.written link.new ≡ L.written link.old }
    ensures blamed { Fails (IsErr result) (L.faults link.old) (L.faults link.new) }
{
    let (_, free) = bytes.split_at_mut(end);
    link.read(free)
}

impl Inbox {
    /// Takes the room; nothing is held.
    pub fn new(alloc: Global) -> Result<Inbox, OutOfMemory>
        ensures { IfOk result (λ inbox. inbox ≡ []) }
    {
        Ok(Inbox {
            bytes: vec![in alloc; 0; MOST_MESSAGE_BYTES]?,
            start: 0,
            end: 0,
        })
    }

    /// Returns what is held.
    pub fn held(&self) -> &[u8]
        ensures { result.now ≡ self.now }
    {
        &self.bytes[self.start..self.end]
    }

    /// Holds nothing any more.
    pub fn clear(&mut self)
        ensures { self.new ≡ [] }
    {
        self.start = 0;
        self.end = 0;
    }

    /// Drops the first bytes that are held.
    pub fn skip(&mut self, count: usize)
        requires { count ≤ length self.old }
        ensures { self.new ≡ drop count self.old }
    {
        self.start += count;
    }

    /// Reads once behind what is held. Where there is no room, what is held moves to the front first.
    pub fn fill<L: Link>(&mut self, link: &mut L) -> Result<usize, Failed>
        requires { length self.old < most_message_bytes }
        ensures got { IfOk result (λ n. (got : List ℕ) × (length got ≡ n)
            × (self.new ≡ self.old ++ got) × Took got (L.left link.old) (L.left link.new)) }
        ensures ended { IfOk result (λ n. n ≡ 0 → IsAtEnd (L.left link.new)) }
        ensures kept { OnErr result ((self.new ≡ self.old) × (L.left link.new ≡ L.left link.old)) }
        ensures apart { L.written link.new ≡ L.written link.old }
        ensures blamed { Fails (IsErr result) (L.faults link.old) (L.faults link.new) }
    {
        if self.end == self.bytes.len() {
            self.bytes.copy_within(self.start..self.end, 0);
            self.end -= self.start;
            self.start = 0;
        }
        let n = read_behind(link, &mut self.bytes, self.end)?;
        self.end += n;
        Ok(n)
    }
}
