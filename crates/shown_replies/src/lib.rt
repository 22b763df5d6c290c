// What the text of a reply shows of the proceedings of an office: the round that a cut published, or that was asked for, and the final admissions.
//
// Runs of scripts build on it, and so do asks over HTTP.
// `specs/Shown` says what a reply shows in the state after it. The words of `reply_texts` say what that looks like.
// It must never know where requests come from, nor how a reply is sent.
#![tactic(auto)]

pub mod laws;
mod line;

pub use line::{reply_line, shown_round, shown_rows};
