// A sink in memory with visible bytes. It fails at chosen calls, and when its room is used up.
ghost use Rattle.std.specs.Prelude.{◌≡◌, ◌<◌, ◌≤◌, ◌-◌, ◌↔◌, ◌⊎◌, [], ℕ, List, Option, length, take, min, IfOk, OnOk, OnErr, IsErr, Some, Contains};
ghost use Rattle.office_base.specs.Outside.{Rose, AppendsPrefix};
ghost use Rattle.office_base.specs.Memory.{IsMemoryWrite};

use crate::mem_source::fails_at;
use crate::{Failed, OutOfMemory, Sink};
use std::alloc::Global;
use std::marker::Model;

/// Keeps the bytes written, at most `room` of them. The room is allocated when it is made: a write allocates nothing.
#[derive(Drop)]
pub struct MemSink {
    bytes: Vec<u8>,
    room: usize,
    calls: u64,
    fail_at: Vec<u32>,
    faults: u64,
}

impl Model for MemSink {
    ghost use Rattle.std.specs.Prelude.{◌≤◌, vec_len, vec_capacity};
    ghost use Rattle.office_base.specs.Memory.{SinkMemory};

    ghost Value = { SinkMemory };

    ghost view = { λ a. record { written = a.bytes.items; room = a.room; calls = a.calls; fail_at = a.fail_at.items; faults = a.faults } };

    ghost invariant = { λ a. (vec_len a.bytes ≤ a.room) × (a.room ≤ vec_capacity a.bytes) };
}

impl MemSink {
    /// Makes a sink with room for this many bytes. The calls with the numbers in `fail_at`, from 1, fail.
    pub fn new(alloc: Global, room: usize, fail_at: &[u32]) -> Result<MemSink, OutOfMemory>
        ensures { IfOk result (λ sink. sink
            ≡ record { written = []; room = room; calls = 0; fail_at = fail_at.now; faults = 0 }) }
    {
        Ok(MemSink {
            bytes: Vec::with_capacity(alloc, room)?,
            room,
            calls: 0,
            fail_at: Vec::from_slice(alloc, fail_at)?,
            faults: 0,
        })
    }

    /// Returns the bytes written so far.
    pub fn bytes(&self) -> &[u8]
        ensures { result.now ≡ self.now.written }
    {
        self.bytes.as_slice()
    }
}

impl Sink for MemSink {
    ghost written = { λ sink. Some sink.written };

    ghost faults = { λ sink. sink.faults };

    fn write(&mut self, piece: &[u8]) -> Result<usize, Failed>
        ensures within { IfOk result (λ n. n ≤ length piece.now) }
        ensures some { IfOk result (λ n. 0 < length piece.now → 0 < n) }
        ensures appended { IfOk result (λ n.
            AppendsPrefix n piece.now (Some self.old.written) (Some self.new.written)) }
        ensures kept { OnErr result (Some self.new.written ≡ Some self.old.written) }
        ensures count { self.old.faults ≤ self.new.faults }
        ensures steady { OnOk result (self.new.faults ≡ self.old.faults) }
        ensures cause { OnErr result (Rose self.old.faults self.new.faults) }
        ensures memory { IsMemoryWrite piece.now self.old self.new result }
    {
        self.calls = self.calls.saturating_add(1);
        let room = self.room - self.bytes.len();
        if fails_at(&self.fail_at, self.calls) || (room == 0 && !piece.is_empty()) {
            self.faults = self.faults.saturating_add(1);
            return Err(Failed);
        }
        let count = piece.len().min(room);
        if self.bytes.extend_from_slice(&piece[..count]).is_err() {
            unreachable!("the room was taken when the sink was made")
        }
        Ok(count)
    }
}
