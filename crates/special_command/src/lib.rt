// The command `special`: the special round of the office that a keeper holds, over lists of those without an admission.
//
// The program builds on it. `specs/Special` says which lists it takes, what it writes of them with each status, and
// that it puts nothing into the keeper. `specs/Texts` says how the round is spelled: how many seats are vacant, with the text
// of the round, and the line that tells why there is none. With the word `lists` the list and the cutoffs of each programme
// follow, so that a refused candidate compares one number.
// It must never know of the words of a command line, nor how a special round is made.
#![tactic(auto)]

pub mod laws;
pub mod lists;
mod special;
mod texts;

pub use lists::SpecialPapers;
pub use special::special_season;
pub use texts::{special_fault_text, special_text};
