// The texts of the office's replies: receipts, readings and refusals.
//
// The commands that handle requests stand on it. `specs/Replies` says each text as a function of values, line by line; the calls give exactly
// that text. It decides nothing, and must never know how a reply came about, of commands or of sinks.
#![tactic(auto)]

mod answers;
mod choices;
mod cutoffs;
mod receipts;
mod refusals;
mod register;
mod reply;
mod words;

pub use cutoffs::cutoffs_text;
pub use office_text::category_name;
pub use register::{push_place, push_traits};
pub use reply::{reply_text, shown_text};
pub use words::{choice_name, standing_name};
