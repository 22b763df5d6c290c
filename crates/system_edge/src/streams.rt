// What the links and doors of one server share: its clock, and its reports on standard error.
ghost use Rattle.std.specs.Prelude.{◌≡◌};

use std::rt::Clock;
use std::sync::atomic::{AtomicBool, Ordering};
use std::time::{Duration, Instant};
use std::{io, thread};

/// Says which answers a server watches for: how they begin, and the line that reports the first of them.
#[derive(Clone, Copy)]
pub struct Watched {
    pub start: &'static [u8],
    pub line: &'static str,
}

/// Holds the clock of a server, and what was reported so far.
/// The first failed `accept` and the first watched answer are reported, by a line each.
#[derive(Drop)]
pub struct Edge<R: Clock + Eprint> {
    rt: R,
    watched: Watched,
    is_accept_reported: AtomicBool,
    is_answer_reported: AtomicBool,
}

impl<R: Clock + Eprint> Edge<R> {
    /// Makes the edge of a server that has reported nothing.
    pub fn new(rt: R, watched: Watched) -> Edge<R>
        ensures rt { result.rt ≡ rt }
        ensures watched { result.watched ≡ watched }
    {
        Edge {
            rt,
            watched,
            is_accept_reported: AtomicBool::new(false),
            is_answer_reported: AtomicBool::new(false),
        }
    }

    /// Reads the clock.
    pub(crate) fn now(&self) -> io::Result<Instant> {
        Instant::now(&self.rt)
    }

    /// Returns the time that passed since an instant.
    pub(crate) fn since(&self, start: Instant) -> io::Result<Duration> {
        start.elapsed(&self.rt)
    }

    /// Waits for this time.
    pub(crate) fn pause(&self, time: Duration) {
        thread::sleep(&self.rt, time);
    }

    /// Reports that a connection could not be accepted, unless that was reported before.
    pub(crate) fn report_accept(&self, error: &io::Error) {
        if !self.is_accept_reported.swap(true, Ordering::SeqCst) {
            let _ = eprintln!(self.rt;
                "cannot accept a connection: {error}; later failures are not reported here"
            );
        }
    }

    /// Reports a watched answer by how it begins, unless one was reported before.
    pub(crate) fn report_answer(&self, start: &[u8]) {
        if start.starts_with(self.watched.start)
            && !self.is_answer_reported.swap(true, Ordering::SeqCst)
        {
            let line = self.watched.line;
            let _ = eprintln!(self.rt; "{line}");
        }
    }
}
