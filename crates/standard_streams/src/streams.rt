// Standard input and output as a source and a sink. To the office they are the trusted edge: it cannot see their bytes.
// They raise a counter, which begins with 0, at each error.
// Clauses of their own say what they do to a reader and a writer with visible bytes.
ghost use Rattle.std.specs.Prelude.{◌≡◌, ◌≢◌, ◌<◌, ◌≤◌, ◌⊎◌, [], ℕ, List, Option, IfOk, IsErr, OnOk, OnErr, None, length, take, true};
ghost use Rattle.std.specs.Io.KnownBytes.{Appends, Keeps, ReadConsumes};
ghost use Rattle.office_base.specs.FaultLines.{memory_line};
ghost use Rattle.office_base.specs.Memory.{counted};
ghost use Rattle.office_base.specs.Outside.{AppendsPrefix, ComesAtTheEnd, Fails, TakesPrefix};
ghost use Rattle.command_answers.specs.declared.status.Status.TheVariants as status;
ghost use Rattle.standard_streams.specs.Streams.{AppendsFront, AreFront, Outputs, given_or_held, held, inner_writer};

use command_answers::Status;
use office_base::{Failed, OutOfMemory, Sink, Source};
use std::alloc::Global;
use std::io::{self, BufWriter, Read, Write};

/// A reader whose bytes the office cannot see.
#[derive(Drop)]
pub struct StandardInput<R: Read> {
    reader: R,
    faults: u64,
}

impl<R: Read> StandardInput<R> {
    pub fn new(reader: R) -> StandardInput<R>
        ensures reader { result.reader ≡ reader }
        ensures faults { result.faults ≡ 0 }
    {
        StandardInput { reader, faults: 0 }
    }
}

impl<R: Read> Source for StandardInput<R> {
    ghost left = { λ _. None };

    ghost faults = { λ input. input.faults };

    fn read(&mut self, buf: &mut [u8]) -> Result<usize, Failed>
        ensures within { IfOk result (λ n. n ≤ length buf.old) }
        ensures taken { IfOk result (λ n. TakesPrefix n None None buf.new) }
        ensures ended { IfOk result (λ n. ComesAtTheEnd n (length buf.old) None) }
        ensures kept { OnErr result (◌≡◌ {A = Option (List ℕ)} None None) }
        ensures blamed { Fails (IsErr result) self.old.faults self.new.faults }
        // what the reader gives is what is read: its end is reported only if nothing is left in it;
        // a failure is one fault more, and takes nothing
        ensures bytes { ReadConsumes (R.remaining self.old.reader)
            (R.remaining self.new.reader) result buf.new }
        ensures raised { OnErr result (self.new.faults ≡ counted self.old.faults) }
    {
        match self.reader.read(buf) {
            Ok(count) => Ok(count),
            Err(_) => {
                self.faults = self.faults.saturating_add(1);
                Err(Failed)
            }
        }
    }
}

// How many bytes are held before they are given on.
const BLOCK_LEN: usize = 65_536;

/// A writer whose bytes the office cannot see. It holds them in a block.
/// It passes them on when the block is full, at the end, and at each write if `at_once` is set.
#[derive(Drop)]
pub struct StandardOutput<W: Write + Drop> {
    writer: BufWriter<W>,
    at_once: bool,
    faults: u64,
}

impl<W: Write + Drop> StandardOutput<W> {
    /// Makes an output, and allocates its block.
    /// `at_once` is for a terminal, where output should be seen before more is read.
    pub fn new(alloc: Global, writer: W, at_once: bool) -> Result<StandardOutput<W>, OutOfMemory>
        ensures faults { IfOk result (λ output. output.faults ≡ 0) }
        ensures at_once { IfOk result (λ output. output.at_once ≡ at_once) }
        ensures writer { IfOk result (λ output. inner_writer output ≡ writer) }
        ensures empty { IfOk result (λ output. held output ≡ []) }
    {
        let Ok(writer) = BufWriter::with_capacity(alloc, BLOCK_LEN, writer) else {
            return Err(OutOfMemory);
        };
        Ok(StandardOutput {
            writer,
            at_once,
            faults: 0,
        })
    }

    /// Passes on what is held, and returns the writer. After an error, here or before, it drops what is still held.
    pub fn finish(self) -> (W, Result<(), Failed>)
        ensures steady { OnOk result.1 (self.faults ≡ 0) }
        // all that was held follows what the writer had, in order and once
        ensures whole { OnOk result.1
            (Keeps (given_or_held W.contents self) (W.contents result.0)) }
        // otherwise a front of it does; if a write failed before, nothing more is passed on
        ensures front { AreFront (W.contents result.0) (given_or_held W.contents self) }
        ensures given_up { 0 < self.faults → result.0 ≡ inner_writer self }
    {
        let StandardOutput {
            mut writer,
            at_once: _,
            faults,
        } = self;
        let is_given = faults == 0 && writer.flush().is_ok();
        let (writer, _) = writer.into_parts();
        if is_given {
            (writer, Ok(()))
        } else {
            (writer, Err(Failed))
        }
    }

    /// Passes on what is held, and returns the writer with the exit status: the given one, or that of a failed write.
    pub fn end(self, status: Status) -> (W, Status)
        ensures status { (result.1 ≡ status) ⊎ (result.1 ≡ Status.WriteFault) }
        // unless a write failed, all that was held follows what the writer had
        ensures steady { result.1 ≢ Status.WriteFault → self.faults ≡ 0 }
        ensures whole { result.1 ≢ Status.WriteFault
            → Keeps (given_or_held W.contents self) (W.contents result.0) }
    {
        let (writer, given) = self.finish();
        match given {
            Ok(()) => (writer, status),
            Err(Failed) => (writer, Status::WriteFault),
        }
    }

    // Takes a prefix of the piece into the block, and passes on the block if nothing should be held.
    // At an error that prefix may be held.
    fn hold(&mut self, piece: &[u8]) -> io::Result<usize>
        ensures within { IfOk result (λ n. n ≤ length piece.now) }
        ensures faults { self.new.faults ≡ self.old.faults }
        ensures at_once { self.new.at_once ≡ self.old.at_once }
        ensures bytes { IfOk result (λ n. Appends (given_or_held W.contents self.old)
            (given_or_held W.contents self.new) (take n piece.now)) }
        ensures front { AppendsFront (given_or_held W.contents self.old)
            (given_or_held W.contents self.new) piece.now }
        ensures seen { OnOk result (self.old.at_once ≡ true → held self.new ≡ []) }
    {
        let count = self.writer.write(piece)?;
        if self.at_once {
            self.writer.flush()?;
        }
        Ok(count)
    }
}

impl<W: Write + Drop> Sink for StandardOutput<W> {
    ghost written = { λ _. None };

    ghost faults = { λ output. output.faults };

    fn write(&mut self, piece: &[u8]) -> Result<usize, Failed>
        ensures within { IfOk result (λ n. n ≤ length piece.now) }
        ensures some { IfOk result (λ n. 0 < length piece.now → 0 < n) }
        ensures appended { IfOk result (λ n. AppendsPrefix n piece.now None None) }
        ensures kept { OnErr result (◌≡◌ {A = Option (List ℕ)} None None) }
        ensures blamed { Fails (IsErr result) self.old.faults self.new.faults }
        ensures raised { OnErr result (self.new.faults ≡ counted self.old.faults) }
        ensures output { Outputs W.contents piece.now self.old self.new result }
    {
        match self.hold(piece) {
            Ok(count) if 0 < count || piece.is_empty() => Ok(count),
            _ => {
                self.faults = self.faults.saturating_add(1);
                Err(Failed)
            }
        }
    }
}

/// Writes to a writer that memory ran out for holding what is written to it.
/// The status says whether it took the whole line.
pub fn tell_unheld<W: Write>(writer: &mut W) -> Status
    ensures status { (result ≡ status.OutOfMemory) ⊎ (result ≡ status.WriteFault) }
    ensures bytes { result ≡ status.OutOfMemory
        → Appends (W.contents writer.old) (W.contents writer.new) memory_line }
{
    match writer.write_all(b"fault: memory\n") {
        Ok(()) => Status::OutOfMemory,
        Err(_) => Status::WriteFault,
    }
}
