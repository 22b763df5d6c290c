// The bodies of the office's replies over HTTP, and the status of each:
// an object in JSON for each kind of reply, and one for all refusals.
//
// The sessions build on it. `specs/Bodies` says each object as a function of values, its members in the rising order of
// their keys; the calls return exactly its compact text.
// Texts of reasons, lists, rounds and final admissions are those that are printed too.
// The bodies that are asked for most often are spelled straight into their text; for the others the kit's `serde_json`
// builds the values and writes them.
// It decides nothing, and must never know how a reply came about, nor know of messages or of links.
#![tactic(auto)]

mod answers;
mod bodies;
mod choices;
mod cutoffs;
mod refusals;
mod register;
mod shown;
mod spelled;
mod status;
mod texts;

pub use bodies::reply_json;
pub use status::status_of;
