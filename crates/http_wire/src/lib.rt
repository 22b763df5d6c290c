// The bytes of HTTP: where a message of a connection ends and what it says, and the bytes of replies.
//
// It looks at the bytes that a connection holds so far and tells whether they begin with a whole message, with bytes that
// are refused at once, or with too few. A message or a refusal stays so whatever bytes follow, and more is wanted only until
// one of them comes: so the answer to a stream does not depend on how it was cut. The grammar of a head is that of the kit's
// `httparse`. No call for it is passed an allocator or answers want of memory.
// A reply is a head with its status, lengths and fields, and a body, as `specs/Replies` says. An `Outbox` holds one at a time.
// It reserves its room when it is made. So a call that puts a reply never runs out of memory, and the reply that reports a lack
// of memory can be put too. The codes and phrases are those of the crate `http`.
// It must never know of routes, of what bodies hold, of links, or which status an answer of the office has.
#![tactic(auto)]

pub mod faults;
pub mod fields;
pub mod head_ends;
pub mod heads;
pub mod held;
pub mod laws;
mod lines;
pub mod message;
pub mod methods;
mod outbox;
pub mod values;

pub use faults::Fault;
pub use fields::Fields;
pub use held::held_message;
pub use message::{Arrived, HeldMessage};
pub use methods::Method;
pub use outbox::{BODY_ROOM, Outbox};
