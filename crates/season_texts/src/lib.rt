// The texts of a season bundle: its counts, and the line that reports its fault.
//
// The commands depend on it. `specs/` defines each text as a function of a season or of a fault; the calls return
// exactly that text. It reads nothing and decides nothing: the caller gives it a season that was read, or why one was
// not. It must never know of commands, sources or sinks.
#![tactic(auto)]

pub mod counts;
pub mod fault;

pub use counts::counts_text;
pub use fault::fault_text;
