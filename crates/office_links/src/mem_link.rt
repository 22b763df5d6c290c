// A link in memory with visible bytes. It fails at chosen calls, and when its room is used up.
ghost use Rattle.std.specs.Prelude.{◌≡◌, ◌<◌, ◌≤◌, ◌-◌, ◌↔◌, ◌⊎◌, [], ℕ, List, Option, length, take, drop, min, IfOk, OnOk, OnErr, IsErr, Some, Contains};
ghost use Rattle.office_base.specs.Outside.{Fails, TakesPrefix, ComesAtTheEnd, AppendsPrefix};
ghost use Rattle.office_base.specs.Memory.{counted};
ghost use Rattle.office_links.specs.Memory.{IsLinkRead, IsLinkWrite, fresh_link};

use crate::Link;
use office_base::{Failed, MemSink, MemSource, OutOfMemory, Sink, Source, fails_at};
use std::alloc::Global;
use std::marker::Model;

/// Holds bytes to read, in pieces of at most `piece` bytes, and room for those that are written: a source and a sink in
/// memory that themselves never fail, with one number over the calls of both.
/// All room is allocated when it is made, so reads and writes allocate nothing.
#[derive(Drop)]
pub struct MemLink {
    source: MemSource,
    sink: MemSink,
    calls: u64,
    fail_at: Vec<u32>,
    faults: u64,
}

impl Model for MemLink {
    ghost use Rattle.std.specs.Prelude.{◌≡◌, []};
    ghost use Rattle.office_links.specs.Memory.{LinkMemory};

    ghost Value = { LinkMemory };

    ghost view = { λ a. record { left = a.source.left; piece = a.source.piece; written = a.sink.written; room = a.sink.room; calls = a.calls; fail_at = a.fail_at.items; faults = a.faults } };

    ghost invariant = { λ a. (a.source.fail_at ≡ []) × (a.sink.fail_at ≡ []) };
}

impl MemLink {
    /// Makes a link that gives these bytes, at most `piece` a read, and has room for `room` bytes written in all.
    /// The calls with the numbers in `fail_at`, from 1 over reads and writes together, fail.
    pub fn new(
        alloc: Global,
        bytes: &[u8],
        piece: usize,
        room: usize,
        fail_at: &[u32],
    ) -> Result<MemLink, OutOfMemory>
        requires { 0 < piece }
        ensures { IfOk result (λ link. link ≡ fresh_link bytes.now piece room fail_at.now) }
    {
        Ok(MemLink {
            source: MemSource::new(alloc, bytes, piece, &[])?,
            sink: MemSink::new(alloc, room, &[])?,
            calls: 0,
            fail_at: Vec::from_slice(alloc, fail_at)?,
            faults: 0,
        })
    }

    /// Returns the bytes written so far.
    pub fn bytes(&self) -> &[u8]
        ensures { result.now ≡ self.now.written }
    {
        self.sink.bytes()
    }

    /// Counts one more fault, and returns the failure of a call.
    fn failed(&mut self) -> Failed
        ensures { self.new ≡ record self.old { faults = counted self.old.faults } }
    {
        self.faults = self.faults.saturating_add(1);
        Failed
    }
}

impl Link for MemLink {
    ghost left = { λ link. Some link.left };

    ghost written = { λ link. Some link.written };

    ghost faults = { λ link. link.faults };

    fn read(&mut self, buf: &mut [u8]) -> Result<usize, Failed>
        ensures within { IfOk result (λ n. n ≤ length buf.old) }
        ensures taken { IfOk result (λ n.
            TakesPrefix n (Some self.old.left) (Some self.new.left) buf.new) }
        ensures ended { IfOk result (λ n. ComesAtTheEnd n (length buf.old) (Some self.old.left)) }
        ensures kept { OnErr result (Some self.new.left ≡ Some self.old.left) }
        ensures apart { Some self.new.written ≡ Some self.old.written }
        ensures blamed { Fails (IsErr result) self.old.faults self.new.faults }
        ensures memory { IsLinkRead (length buf.old) self.old self.new result }
    {
        self.calls = self.calls.saturating_add(1);
        if fails_at(&self.fail_at, self.calls) {
            return Err(self.failed());
        }
        match self.source.read(buf) {
            Ok(count) => Ok(count),
            Err(_) => unreachable!("the source is told of no call to fail"),
        }
    }

    fn write(&mut self, piece: &[u8]) -> Result<usize, Failed>
        ensures within { IfOk result (λ n. n ≤ length piece.now) }
        ensures some { IfOk result (λ n. 0 < length piece.now → 0 < n) }
        ensures appended { IfOk result (λ n.
            AppendsPrefix n piece.now (Some self.old.written) (Some self.new.written)) }
        ensures kept { OnErr result (Some self.new.written ≡ Some self.old.written) }
        ensures apart { Some self.new.left ≡ Some self.old.left }
        ensures blamed { Fails (IsErr result) self.old.faults self.new.faults }
        ensures memory { IsLinkWrite piece.now self.old self.new result }
    {
        self.calls = self.calls.saturating_add(1);
        if fails_at(&self.fail_at, self.calls) {
            return Err(self.failed());
        }
        match self.sink.write(piece) {
            Ok(count) => Ok(count),
            Err(_) => Err(self.failed()),
        }
    }
}
