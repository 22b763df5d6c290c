// The edge of the program to the system: connections over its streams and a listener, as links and a door, and keepers over
// files, which are opened with their tables and closed at the end.
//
// The program builds on it. This crate is trusted where it ends: no clause says what a socket gives and takes, or who connects,
// nor which bytes a file of the system gives and takes. Links and doors count their errors, and the office cannot see their bytes
// or connections. That they lose nothing of what goes through them, and add nothing, is proved for streams and listeners that a
// proof can see; an open is proved for all contents that the two files may have.
// What a keeper over a database keeps is said in `keeper_sqlite`. It must never know of HTTP, of words, of commands or of seats.
#![tactic(auto)]

mod door;
mod files;
mod heads;
mod hidden;
mod link;
mod listener;
mod stores;
mod streams;

pub use door::LoopbackDoor;
pub use files::{FileKeeper, StoreFile, close_keeper, open_keeper};
pub use link::LoopbackLink;
pub use listener::{Listener, SystemListener};
pub use sqlite::Unknown;
pub use stores::{Unopened, open_store};
pub use streams::{Edge, Watched};
