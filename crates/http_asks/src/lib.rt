// What a message asks of the office, or with which status it is refused: its path, its method, its body, its token.
//
// It builds on the messages of a connection, below the session.
// `specs/` says which page a target names, by the pieces of its path between slashes, what the body of each page asks,
// and what the verdict on a message is; the one call returns exactly that.
// The kit's `matchit` finds the road of a path over routes that are made once, and its `serde_json` reads bodies.
// Only these allocate.
// Links, replies and what the office answers are the matter of other layers:
// it must never know of them, nor whether a candidate or a programme is there.
#![tactic(auto)]

pub mod bodies;
pub mod judging;
pub mod laws;
pub mod pages;
mod pieces;
pub mod roads;
pub mod router;

pub use judging::{Judged, judge, token};
pub use pages::Page;
pub use router::Routes;
