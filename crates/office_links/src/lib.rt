// Links, over which one connection is read and written, and doors, which give connections and take them back.
//
// `outside` says what is visible of them and what each call does to them,
// in the manner of the sources and sinks of `office_base`.
// `MemLink` and `MemDoor` are in memory: all of them is visible, and they fail at chosen calls.
// Those over real sockets are at the program's edge.
// No function here knows of HTTP or of the office.
#![tactic(auto)]

mod mem_door;
mod mem_link;
mod outside;
mod whole;

pub use mem_door::MemDoor;
pub use mem_link::MemLink;
pub use outside::{Door, Link};
pub use whole::write_link;
