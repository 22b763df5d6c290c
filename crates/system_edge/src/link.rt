// A link over a stream. The office cannot see its bytes. It raises its count, which begins with 0, at each error.
// Clauses of their own say what it does to a stream whose bytes a proof can see.
ghost use Rattle.std.specs.Prelude.{◌≡◌, ◌≤◌, ◌<◌, ℕ, List, Option, IfOk, OnErr, None, length};
ghost use Rattle.system_edge.specs.Failing.{FailsIn};
ghost use Rattle.std.specs.Io.KnownBytes.{ReadConsumes, WriteAppends};
ghost use Rattle.office_base.specs.Outside.{AppendsPrefix, ComesAtTheEnd, Rose, TakesPrefix};

use crate::streams::Edge;
use office_base::Failed;
use office_links::Link;
use std::io::{self, ErrorKind, Read, Write};
use std::net::OpenStream;
use std::rt::Clock;
use std::time::{Duration, Instant};

// How often a call is made again that a signal interrupted.
const TRIES: u32 = 16;

/// Bounds each read and write, in seconds:
/// so long it waits for the other side within a message or an answer, and for the first message.
const WAIT: u64 = 30;

/// Bounds the silence of a connection after an answer, in seconds:
/// so long it waits for the first byte of the next message.
const SILENCE: u64 = 2;

/// Bounds a whole message, in seconds from its first bytes on, and a whole answer,
/// from the first write that was cut short.
const WHOLE: u64 = 60;

// How far a connection is.
#[derive(Clone, Copy, PartialEq, Eq)]
enum Stage {
    // Nothing came yet.
    New,
    // Bytes of a message came, and nothing was written since.
    Message,
    // An answer is written, as fast as it can be.
    Answer,
    // An answer is written, and the other side has let it wait.
    SlowAnswer,
}

/// Reads and writes one connection over a stream, and counts its errors.
/// A call that a signal interrupted is made again, up to 16 times. A stream that timed out is an error.
/// After an answer the link waits 2 seconds for the next message.
/// A message takes at most 60 seconds, and each read or write at most 30.
#[derive(Drop)]
pub struct LoopbackLink<'e, S: Read + Write + OpenStream + Drop, R: Clock + Eprint> {
    stream: S,
    edge: &'e Edge<R>,
    stage: Stage,
    began: Option<Instant>,
    read_wait: Duration,
    write_wait: Duration,
    faults: u64,
}

impl<'e, S: Read + Write + OpenStream + Drop, R: Clock + Eprint> LoopbackLink<'e, S, R> {
    /// Sets up a stream and makes a link over it, without errors so far.
    /// A stream that cannot be set up is an error, since it could wait forever.
    pub fn open(stream: S, edge: &'e Edge<R>) -> io::Result<LoopbackLink<'e, S, R>>
        ensures stream { IfOk result (λ link. link.stream ≡ stream) }
        ensures faults { IfOk result (λ link. link.faults ≡ 0) }
    {
        let wait = Duration::from_secs(WAIT);
        stream.set_nodelay(true)?;
        stream.set_read_timeout(Some(wait))?;
        stream.set_write_timeout(Some(wait))?;
        Ok(LoopbackLink {
            stream,
            edge,
            stage: Stage::New,
            began: None,
            read_wait: wait,
            write_wait: wait,
            faults: 0,
        })
    }

    /// Returns the stream, for what is done at the end of a connection.
    pub fn into_stream(self) -> S
        ensures { result ≡ self.entry.stream }
    {
        self.stream
    }

    // Counts an error.
    fn failed(&mut self) -> Failed
        ensures count { self.old.faults ≤ self.new.faults }
        ensures cause { Rose self.old.faults self.new.faults }
        ensures stream { self.new.stream ≡ self.old.stream }
    {
        self.faults = self.faults.saturating_add(1);
        Failed
    }

    // Returns how long the link may still wait for this message or answer. The time begins with the first call.
    fn time_left(&mut self) -> io::Result<Duration>
        ensures faults { self.new.faults ≡ self.old.faults }
        ensures stream { self.new.stream ≡ self.old.stream }
    {
        let wait = Duration::from_secs(WAIT);
        let Some(start) = self.began else {
            self.began = Some(self.edge.now()?);
            return Ok(wait);
        };
        let spent = self.edge.since(start)?;
        match Duration::from_secs(WHOLE).checked_sub(spent) {
            Some(left) => Ok(left.min(wait)),
            None => Err(io::Error::from(ErrorKind::TimedOut)),
        }
    }

    // Sets how long the next read waits.
    fn begin_read(&mut self) -> io::Result<()>
        ensures faults { self.new.faults ≡ self.old.faults }
        ensures stream { self.new.stream ≡ self.old.stream }
    {
        let wait = match self.stage {
            Stage::New => Duration::from_secs(WAIT),
            Stage::Message => self.time_left()?,
            Stage::Answer | Stage::SlowAnswer => Duration::from_secs(SILENCE),
        };
        if wait != self.read_wait {
            self.stream.set_read_timeout(Some(wait))?;
            self.read_wait = wait;
        }
        Ok(())
    }

    // Sets how long the next write waits. The first write of an answer may be reported.
    fn begin_write(&mut self, piece: &[u8]) -> io::Result<()>
        ensures faults { self.new.faults ≡ self.old.faults }
        ensures stream { self.new.stream ≡ self.old.stream }
    {
        let wait = match self.stage {
            Stage::New | Stage::Message => {
                self.stage = Stage::Answer;
                self.began = None;
                self.edge.report_answer(piece);
                Duration::from_secs(WAIT)
            }
            Stage::Answer => Duration::from_secs(WAIT),
            Stage::SlowAnswer => self.time_left()?,
        };
        if wait != self.write_wait {
            self.stream.set_write_timeout(Some(wait))?;
            self.write_wait = wait;
        }
        Ok(())
    }
}

#[tactic(auto, using(crate::proofs::Known::read_after, crate::proofs::Known::keeps_same, crate::proofs::Known::keeps_twice))]
fn read_uninterrupted<S: Read>(stream: &mut S, buf: &mut [u8]) -> io::Result<usize>
    ensures within { IfOk result (λ n. n ≤ length buf.old) }
    ensures bytes { ReadConsumes (S.remaining stream.old) (S.remaining stream.new) result buf.new }
{
    for _ in 0..TRIES {
        match stream.read(buf) {
            Err(error) if error.kind() == ErrorKind::Interrupted => {}
            ended => return ended,
        }
    }
    stream.read(buf)
}

#[tactic(auto, using(crate::proofs::Known::write_after, crate::proofs::Known::keeps_same, crate::proofs::Known::keeps_twice))]
fn write_uninterrupted<S: Write>(stream: &mut S, piece: &[u8]) -> io::Result<usize>
    ensures within { IfOk result (λ n. n ≤ length piece.now) }
    ensures bytes { WriteAppends (S.contents stream.old) (S.contents stream.new) result piece.now }
{
    for _ in 0..TRIES {
        match stream.write(piece) {
            Err(error) if error.kind() == ErrorKind::Interrupted => {}
            ended => return ended,
        }
    }
    stream.write(piece)
}

impl<'e, S: Read + Write + OpenStream + Drop, R: Clock + Eprint> Link for LoopbackLink<'e, S, R> {
    ghost left = { λ _. None };

    ghost written = { λ _. None };

    ghost faults = { λ link. link.faults };

    fn read(&mut self, buf: &mut [u8]) -> Result<usize, Failed>
        ensures within { IfOk result (λ n. n ≤ length buf.old) }
        ensures taken { IfOk result (λ n. TakesPrefix n None None buf.new) }
        ensures ended { IfOk result (λ n. ComesAtTheEnd n (length buf.old) None) }
        ensures kept { OnErr result (◌≡◌ {A = Option (List ℕ)} None None) }
        ensures apart { ◌≡◌ {A = Option (List ℕ)} None None }
        ensures blamed { FailsIn result self.old.faults self.new.faults }
        // what the stream gives is what is read; an end comes only if nothing is left, and a failure takes nothing
        ensures bytes { ReadConsumes (S.remaining self.old.stream)
            (S.remaining self.new.stream) result buf.new }
    {
        if self.begin_read().is_err() {
            return Err(self.failed());
        }
        match read_uninterrupted(&mut self.stream, buf) {
            Ok(count) => {
                if self.stage != Stage::Message {
                    self.stage = Stage::Message;
                    self.began = None;
                }
                Ok(count)
            }
            Err(_) => Err(self.failed()),
        }
    }

    fn write(&mut self, piece: &[u8]) -> Result<usize, Failed>
        ensures within { IfOk result (λ n. n ≤ length piece.now) }
        ensures some { IfOk result (λ n. 0 < length piece.now → 0 < n) }
        ensures appended { IfOk result (λ n. AppendsPrefix n piece.now None None) }
        ensures kept { OnErr result (◌≡◌ {A = Option (List ℕ)} None None) }
        ensures apart { ◌≡◌ {A = Option (List ℕ)} None None }
        ensures blamed { FailsIn result self.old.faults self.new.faults }
        // what is taken of the piece follows what the stream had, and nothing does at a failure
        ensures bytes { WriteAppends (S.contents self.old.stream)
            (S.contents self.new.stream) result piece.now }
    {
        if self.begin_write(piece).is_err() {
            return Err(self.failed());
        }
        match write_uninterrupted(&mut self.stream, piece) {
            Ok(count) if 0 < count || piece.is_empty() => {
                if count < piece.len() {
                    self.stage = Stage::SlowAnswer;
                }
                Ok(count)
            }
            _ => Err(self.failed()),
        }
    }
}
