// A door over a listener. The office cannot see its connections.
// It raises its count, which begins with 0, at each error.
// Clauses of their own say what it takes from a listener whose connections a proof can see.
ghost use Rattle.std.specs.Prelude.{◌≡◌, ◌≤◌, ◌+◌, Option, IfNone, IfOk, IfSome, OnErr, None};
ghost use Rattle.office_links.specs.Visits.{GivesFirst, TakesBack, Visits};
ghost use Rattle.system_edge.specs.Failing.{FailsIn};
ghost use Rattle.system_edge.specs.Coming.{IsNext, LosesOne};
ghost use Rattle.system_edge.specs.declared.link.LoopbackLink.{LoopbackLink as AnyLink};

use crate::LoopbackLink;
use crate::listener::Listener;
use crate::streams::Edge;
use office_base::Failed;
use office_links::Door;
use std::io::{self, ErrorKind, Read};
use std::marker::Model;
use std::net::{OpenStream, Shutdown};
use std::rt::Clock;
use std::time::Duration;

// How often it waits again for a connection, after one that was closed before it was taken, or after a signal.
const TRIES: u32 = 1_000;

/// Bounds a pause, in milliseconds: so long a door waits before it tries again,
/// when the system has no room for another connection.
const PAUSE_MILLIS: u64 = 100;

/// Bounds the pauses for one connection. After them the error is one of the door.
const PAUSES: u32 = 600;

// The errors of `accept` which say that there is no room for another connection: EMFILE, ENFILE, ENOBUFS and ENOMEM.
const NO_ROOM: [i32; 4] = [24, 23, 105, 12];

/// Bounds the end of a connection, in seconds: so long a door waits until the other side closes too.
const LINGER: u64 = 1;

// At the end of a connection a door reads away at most this many pieces, each of at most the number of bytes below.
const PIECES: u32 = 1_000_000;

const PIECE_LEN: usize = 4_096;

/// Gives a number of connections of a listener, one after another.
/// What is written to a connection goes out at once. `LoopbackLink` says how long a link waits for the other side.
#[derive(Drop)]
pub struct LoopbackDoor<'e, L: Listener + Drop, R: Clock + Eprint> {
    listener: L,
    edge: &'e Edge<R>,
    left: u32,
    out: u32,
    faults: u64,
}

impl<'e, L: Listener + Drop, R: Clock + Eprint> Model for LoopbackDoor<'e, L, R> {
    ghost use Rattle.std.specs.Prelude.{◌<◌, ◌+◌, ◌^◌};
    ghost use Rattle.system_edge.specs.Counts.{DoorCounts};

    ghost Value = { DoorCounts L };

    ghost view = { λ a. record { listener = a.listener; left = a.left; out = a.out; faults = a.faults } };

    ghost invariant = { λ a. a.left + a.out < 2 ^ 32 };
}

impl<'e, L: Listener + Drop, R: Clock + Eprint> LoopbackDoor<'e, L, R> {
    /// Makes a door that takes `conns` connections of this listener, without errors so far.
    pub fn new(listener: L, conns: u32, edge: &'e Edge<R>) -> LoopbackDoor<'e, L, R>
        ensures { result ≡ record { listener = listener; left = conns; out = 0; faults = 0 } }
    {
        LoopbackDoor {
            listener,
            edge,
            left: conns,
            out: 0,
            faults: 0,
        }
    }
}

// Takes the next connection of a listener, and reports the first error.
// While the system has no room for one it waits, up to a minute in all.
fn next_stream<L: Listener, R: Clock + Eprint>(
    listener: &mut L,
    edge: &Edge<R>,
) -> io::Result<L::Stream>
    ensures next { IfOk result (λ stream.
        IsNext (L.coming listener.old) stream (L.coming listener.new)) }
    ensures kept { OnErr result (L.coming listener.new ≡ L.coming listener.old) }
{
    let mut pauses = 0;
    for _ in 0..TRIES {
        match listener.accept() {
            Ok(stream) => return Ok(stream),
            // It was closed before it was taken, or a signal came.
            Err(error)
                if matches!(
                    error.kind(),
                    ErrorKind::Interrupted | ErrorKind::ConnectionAborted
                ) => {}
            Err(error) => {
                edge.report_accept(&error);
                let has_no_room = match error.raw_os_error() {
                    Some(code) => NO_ROOM.contains(&code),
                    None => false,
                };
                if PAUSES <= pauses || !has_no_room {
                    return Err(error);
                }
                pauses += 1;
                edge.pause(Duration::from_millis(PAUSE_MILLIS));
            }
        }
    }
    listener.accept()
}

// Takes the next connection, set up.
fn take_link<'e, L: Listener, R: Clock + Eprint>(
    listener: &mut L,
    edge: &'e Edge<R>,
) -> io::Result<LoopbackLink<'e, L::Stream, R>>
    ensures next { IfOk result (λ link.
        IsNext (L.coming listener.old) link.stream (L.coming listener.new)) }
    ensures lost { OnErr result (LosesOne (L.coming listener.old) (L.coming listener.new)) }
{
    let stream = next_stream(listener, edge)?;
    LoopbackLink::open(stream, edge)
}

// Reads away what the other side sends, until its end and for a second at most.
fn read_away<S: Read + OpenStream, R: Clock + Eprint>(
    stream: &mut S,
    edge: &Edge<R>,
) -> io::Result<()> {
    let start = edge.now()?;
    let mut waste = [0; PIECE_LEN];
    for _ in 0..PIECES {
        let spent = edge.since(start)?;
        let Some(left) = Duration::from_secs(LINGER).checked_sub(spent) else {
            return Ok(());
        };
        stream.set_read_timeout(Some(left))?;
        if stream.read(&mut waste)? == 0 {
            return Ok(());
        }
    }
    Ok(())
}

impl<'e, L: Listener + Drop, R: Clock + Eprint> Door for LoopbackDoor<'e, L, R> {
    type Conn = LoopbackLink<'e, L::Stream, R>;

    ghost to_come = { λ door. door.left };

    ghost out = { λ door. door.out };

    ghost told = { λ _. None };

    ghost faults = { λ door. door.faults };

    ghost told_number = { λ door. tt };

    fn accept(&mut self) -> Result<Option<LoopbackLink<'e, L::Stream, R>>, Failed>
        ensures none { IfOk result (λ r. IfNone r ((self.old.left ≡ 0) × (self.new.left ≡ 0))) }
        ensures none_same { IfOk result (λ r. IfNone r ((self.new.out ≡ self.old.out)
            × ◌≡◌ {A = Option (Visits (AnyLink L.Stream R))} None None)) }
        ensures some { IfOk result (λ r. IfSome r (λ conn. self.old.left ≡ self.new.left + 1)) }
        ensures gives { IfOk result (λ r.
            IfSome r (λ conn. (self.new.out ≡ self.old.out + 1) × GivesFirst None conn None)) }
        ensures kept { OnErr result ((self.new.left ≡ self.old.left) × (self.new.out ≡ self.old.out)
            × ◌≡◌ {A = Option (Visits (AnyLink L.Stream R))} None None) }
        ensures blamed { FailsIn result self.old.faults self.new.faults }
        // each connection of the listener is given, in its order; a failure loses one at most, and the last call none
        ensures next { IfOk result (λ r. IfSome r (λ conn.
            IsNext (L.coming self.old.listener) conn.stream (L.coming self.new.listener))
            × IfNone r (L.coming self.new.listener ≡ L.coming self.old.listener)) }
        ensures lost { OnErr result
            (LosesOne (L.coming self.old.listener) (L.coming self.new.listener)) }
    {
        if self.left == 0 {
            return Ok(None);
        }
        let Ok(link) = take_link(&mut self.listener, self.edge) else {
            self.faults = self.faults.saturating_add(1);
            return Err(Failed);
        };
        self.left -= 1;
        self.out += 1;
        Ok(Some(link))
    }

    // The other side sees the end of what was written. What it still sends is read away first: otherwise the system would
    // answer unread bytes by taking back what the other side has not read.
    fn give_back(&mut self, conn: LoopbackLink<'e, L::Stream, R>) {
        self.out -= 1;
        let mut stream = conn.into_stream();
        if stream.shutdown(Shutdown::Write).is_ok() {
            let _ = read_away(&mut stream, self.edge);
        }
    }
}
