// A source and a sink that never fail: their count of faults is the constant 0.
ghost use Rattle.std.specs.Prelude.{◌≡◌, ◌<◌, ◌≤◌, [], ℕ, List, Option, length, min, IfOk, IsOk, OnOk, OnErr, Some, None};
ghost use Rattle.office_base.specs.Outside.{Rose, TakesPrefix, ComesAtTheEnd, AppendsPrefix};
ghost use Rattle.office_base.specs.Memory.{IsSureRead};

use crate::{Failed, OutOfMemory, Sink, Source};
use std::alloc::Global;
use std::marker::Model;

/// Holds bytes in memory, and returns them in pieces of at most `piece` bytes. It never fails.
#[derive(Drop)]
pub struct SureSource {
    bytes: Vec<u8>,
    read: usize,
    piece: usize,
}

impl Model for SureSource {
    ghost use Rattle.std.specs.Prelude.{◌<◌, ◌≤◌, ℕ, List, drop, length};

    ghost Value = { List ℕ × ℕ };

    ghost view = { λ a. (drop a.read a.bytes.items, a.piece) };

    ghost invariant = { λ a. (a.read ≤ length a.bytes.items) × (0 < a.piece) };
}

impl SureSource {
    /// Makes a source of these bytes. One read returns at most `piece` bytes.
    pub fn new(alloc: Global, bytes: &[u8], piece: usize) -> Result<SureSource, OutOfMemory>
        requires { 0 < piece }
        ensures { IfOk result (λ source. source ≡ (bytes.now, piece)) }
    {
        Ok(SureSource {
            bytes: Vec::from_slice(alloc, bytes)?,
            read: 0,
            piece,
        })
    }
}

impl Source for SureSource {
    ghost left = { λ source. Some source.0 };

    ghost faults = { λ _. 0 };

    fn read(&mut self, buf: &mut [u8]) -> Result<usize, Failed>
        ensures within { IfOk result (λ n. n ≤ length buf.old) }
        ensures taken { IfOk result (λ n.
            TakesPrefix n (Some self.old.0) (Some self.new.0) buf.new) }
        ensures ended { IfOk result (λ n. ComesAtTheEnd n (length buf.old) (Some self.old.0)) }
        ensures kept { OnErr result (Some self.new.0 ≡ Some self.old.0) }
        ensures count { 0 ≤ 0 }
        ensures steady { OnOk result (◌≡◌ {A = ℕ} 0 0) }
        ensures cause { OnErr result (Rose 0 0) }
        // it gives as much as the piece and the buffer allow, and never fails
        ensures sure { IsSureRead (length buf.old) self.old self.new result }
    {
        let left = self.bytes.len() - self.read;
        let count = self.piece.min(buf.len().min(left));
        buf[..count].copy_from_slice(&self.bytes[self.read..self.read + count]);
        self.read += count;
        Ok(count)
    }
}

/// Takes each piece whole and keeps nothing. Its bytes are hidden. It allocates nothing and never fails.
#[derive(Drop)]
pub struct SureSink {}

impl SureSink {
    pub fn new() -> SureSink {
        SureSink {}
    }
}

impl Sink for SureSink {
    ghost written = { λ _. None };

    ghost faults = { λ _. 0 };

    fn write(&mut self, piece: &[u8]) -> Result<usize, Failed>
        ensures within { IfOk result (λ n. n ≤ length piece.now) }
        ensures some { IfOk result (λ n. 0 < length piece.now → 0 < n) }
        ensures appended { IfOk result (λ n. AppendsPrefix n piece.now None None) }
        ensures kept { OnErr result (◌≡◌ {A = Option (List ℕ)} None None) }
        ensures count { 0 ≤ 0 }
        ensures steady { OnOk result (◌≡◌ {A = ℕ} 0 0) }
        ensures cause { OnErr result (Rose 0 0) }
        ensures whole { result ≡ Ok (length piece.now) }
    {
        Ok(piece.len())
    }
}
