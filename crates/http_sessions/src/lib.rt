// The messages of a connection, answered one after another over any counter, and the connections of a door.
//
// `serve` and code that holds a session over an office build on it.
// `specs/Exchange` cuts the bytes of a link into messages and says the reply to each, `specs/Sessions` says how a
// session ends, `specs/Doors` what became of the connections of a door.
// A counter is anything that takes asks. What it answers is its own matter, and a session is proved once over all of
// them. The text of a reply is written from a room that was made before, so only bodies allocate.
// It must never know of seasons, of states or of histories, nor whether the counter is an office or is at a desk.
#![tactic(auto)]

mod answering;
mod conversation;
mod counter;
mod doors;
mod gate;
mod inbox;
mod messages;

pub use conversation::{Buffers, SessionEnd, session};
pub use counter::{Answered, Counter};
pub use doors::serve_door;
pub use gate::{Gate, OpenGate};
