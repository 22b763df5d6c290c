// The readers of rounds and final admissions, next to the writers and readers of all published texts.
//
// Every crate that checks published rounds depends on it. A text is read line by line into a reader that knows, as
// numbers, what can still follow. `specs/Rows` defines the texts, and `laws` says that what is written is read back.
// It decides nothing about an allocation. It must never know of commands or sinks.
#![tactic(auto)]

mod head;
pub mod laws;
mod parts;
mod pieces;
pub mod reads;
mod rows;
mod sort;
mod stage;

pub use list_texts::{ListRead, read_list};
pub use published_texts::{final_text, list_text, reason_text, round_text};
pub use reads::{FinalRead, RoundRead, read_final, read_round};
pub use text_readers::TextFault;
