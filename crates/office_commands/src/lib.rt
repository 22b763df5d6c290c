// The commands of the office: `serve`, and `allocate`, the one top call.
//
// The program and its trials build on it. What `allocate` writes and how it ends is proved for the words, the bytes and
// the tables that it is given; `specs/Program` says it. `specs/Serve` says what `serve` reads, how it ends with each status, and
// what the tables of the keeper represent then; `specs/Doors` what became of the doors.
// It decides nothing of seats itself. It must never know what is behind a source, a sink, a keeper or a socket.
#![tactic(auto)]

mod kept;
mod laws;
mod program;
mod season;
mod serving;
mod telling;

pub use kept::serve_kept;
pub use program::allocate;
pub use season::serve_season;
