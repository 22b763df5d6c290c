// The texts that the office publishes: a round, the list of a programme, the final admissions, and the reason of a
// refusal.
//
// The replies of the office, the commands and the readers of these texts depend on it. `specs/Texts` defines each
// text as a function of values, line by line; the calls write exactly that text, in one pass. It decides nothing: the
// caller gives it a round, a programme, rows or an answer. It must never know how these came about, or of commands or
// sinks.
#![tactic(auto)]

pub mod admissions;
pub mod listing;
pub mod reason;
pub mod round;
mod seat;

pub use admissions::final_text;
pub use listing::list_text;
pub use reason::reason_text;
pub use round::round_text;
