// A source in memory with visible bytes. It fails at chosen calls.
ghost use Rattle.std.specs.Prelude.{◌≡◌, ◌<◌, ◌≤◌, ◌↔◌, [], ℕ, List, Option, length, take, drop, min, IfOk, OnOk, OnErr, IsErr, IsTrue, Some, Contains};
ghost use Rattle.office_base.specs.Outside.{Rose, TakesPrefix, ComesAtTheEnd};
ghost use Rattle.office_base.specs.Memory.{IsMemoryRead, fresh_source};

use crate::{Failed, OutOfMemory, Source};
use std::alloc::Global;
use std::marker::Model;

/// Holds bytes in memory, and returns them in pieces of at most `piece` bytes.
#[derive(Drop)]
pub struct MemSource {
    bytes: Vec<u8>,
    read: usize,
    piece: usize,
    calls: u64,
    fail_at: Vec<u32>,
    faults: u64,
}

impl Model for MemSource {
    ghost use Rattle.std.specs.Prelude.{◌<◌, ◌≤◌, drop, length};
    ghost use Rattle.office_base.specs.Memory.{SourceMemory};

    ghost Value = { SourceMemory };

    ghost view = { λ a. record { left = drop a.read a.bytes.items; piece = a.piece; calls = a.calls; fail_at = a.fail_at.items; faults = a.faults } };

    ghost invariant = { λ a. (a.read ≤ length a.bytes.items) × (0 < a.piece) };
}

impl MemSource {
    /// Makes a source of these bytes. One read returns at most `piece` bytes.
    /// The calls with the numbers in `fail_at`, from 1, fail.
    pub fn new(
        alloc: Global,
        bytes: &[u8],
        piece: usize,
        fail_at: &[u32],
    ) -> Result<MemSource, OutOfMemory>
        requires { 0 < piece }
        ensures { IfOk result (λ source. source ≡ fresh_source bytes.now piece fail_at.now) }
    {
        Ok(MemSource {
            bytes: Vec::from_slice(alloc, bytes)?,
            read: 0,
            piece,
            calls: 0,
            fail_at: Vec::from_slice(alloc, fail_at)?,
            faults: 0,
        })
    }
}

impl Source for MemSource {
    ghost left = { λ source. Some source.left };

    ghost faults = { λ source. source.faults };

    fn read(&mut self, buf: &mut [u8]) -> Result<usize, Failed>
        ensures within { IfOk result (λ n. n ≤ length buf.old) }
        ensures taken { IfOk result (λ n.
            TakesPrefix n (Some self.old.left) (Some self.new.left) buf.new) }
        ensures ended { IfOk result (λ n. ComesAtTheEnd n (length buf.old) (Some self.old.left)) }
        ensures kept { OnErr result (Some self.new.left ≡ Some self.old.left) }
        ensures count { self.old.faults ≤ self.new.faults }
        ensures steady { OnOk result (self.new.faults ≡ self.old.faults) }
        ensures cause { OnErr result (Rose self.old.faults self.new.faults) }
        ensures memory { IsMemoryRead (length buf.old) self.old self.new result }
    {
        self.calls = self.calls.saturating_add(1);
        if fails_at(&self.fail_at, self.calls) {
            self.faults = self.faults.saturating_add(1);
            return Err(Failed);
        }
        let left = self.bytes.len() - self.read;
        let count = self.piece.min(buf.len().min(left));
        buf[..count].copy_from_slice(&self.bytes[self.read..self.read + count]);
        self.read += count;
        Ok(count)
    }
}

/// Returns whether the call of this number, from 1, is one of those that must fail.
pub fn fails_at(fail_at: &[u32], call: u64) -> bool
    ensures { IsTrue result ↔ Contains fail_at.now call }
{
    fail_at.iter().any(|at| u64::from(*at) == call)
}
