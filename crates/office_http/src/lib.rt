// The office over HTTP: an ask with its token put to an office, alone or in turns at a desk, and all doors served at once with
// one history.
//
// The command that serves builds on it, and so does code that holds sessions over an office.
// `specs/Asking` says who a token is for, and what an ask that was answered, or was not, leaves of an office. A reply and its body
// are made together, while the season can be read. `specs/Knowing` says what a pass knows, and what one ask leaves of that.
// Each door has a worker on a thread of its own, and all workers take turns at one desk, so that what they were answered is one
// history. It passes on the sessions, the gate and the body of a reply.
// It must never know how a message is spelled, how a season came, what a real connection is, nor how a server ends.
#![tactic(auto)]

mod bodies;
mod counter;
mod desk_counter;
mod hands;
mod putting;
mod serving;
mod stood;

pub use bodies::{Bodies, RoundBody};
pub use counter::OfficeCounter;
pub use desk_counter::DeskCounter;
pub use http_sessions::{
    Answered, Buffers, Counter, Gate, OpenGate, SessionEnd, serve_door, session,
};
pub use office_links::{Door, Link};
pub use putting::{put_to_office, token_parts};
pub use reply_bodies::reply_json;
pub use serving::{Served, serve};
pub use stood::{DeskOffice, TablesBefore};
