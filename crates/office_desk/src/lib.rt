// The desk: one history for calls from several threads.
//
// A value is at a desk, and everyone who has a pass may take turns with it, one at a time. The value's entries are then
// one history, which holds each pass's own entries, in the order of its turns, and nothing else.
// The first entries of the history are kept, and each pass knows how many were after the last turn that it knows of.
// The rule of the desk says what its two words, its one slot and the views of its passes say of that history. Each step that
// the desk makes is of a kind named here, and each kind keeps the rule.
// The desk knows nothing of what the value is. Nothing is promised of progress:
// neither that a turn ever comes, nor in which order callers come who do not know of each other.
#![tactic(auto)]

pub mod ends;
pub mod handles;
pub mod keeps;
pub mod parts;
pub mod passes;
pub mod steps;
pub mod turning;
pub mod view;

pub use handles::{Desk, Pass};
pub use keeps::Keeps;
pub use office_base::Booked;
pub use parts::{Part, Portion, Union};
pub use steps::{Advance, Draw, Look, Settle};
pub use view::{Stage, Turns, View};
