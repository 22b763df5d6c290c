// What connections are taken from.
ghost use Rattle.std.specs.Prelude.{◌≡◌, List, Option, IfOk, OnErr};
ghost use Rattle.system_edge.specs.Coming.{IsNext};

use std::io::{self, Read, Write};
use std::net::{OpenListener, OpenStream};

/// Gives connections, one after another.
pub trait Listener {
    type Stream: Read + Write + OpenStream + Drop;

    /// The connections still to come, or None if a proof cannot see them.
    ghost coming: { Self → Option (List Self.Stream) };

    /// Takes the next connection. An error takes none.
    fn accept(&mut self) -> io::Result<Self::Stream>
        ensures next { IfOk result (λ stream. IsNext (coming self.old) stream (coming self.new)) }
        ensures kept { OnErr result (coming self.new ≡ coming self.old) };
}

/// Takes connections from a listener of the system. A proof cannot see them.
#[derive(Drop)]
pub struct SystemListener<L: OpenListener + Drop> {
    listener: L,
}

impl<L: OpenListener + Drop> SystemListener<L> {
    /// Makes a listener of one of the system.
    pub fn new(listener: L) -> SystemListener<L>
        ensures { result.listener ≡ listener }
    {
        SystemListener { listener }
    }
}

impl<L: OpenListener<Stream: Read + Write + OpenStream> + Drop> Listener for SystemListener<L> {
    ghost use Rattle.std.specs.Prelude.{None};

    type Stream = L::Stream;

    ghost coming = { λ _. None };

    fn accept(&mut self) -> io::Result<L::Stream> {
        let (stream, _) = self.listener.accept()?;
        Ok(stream)
    }
}
