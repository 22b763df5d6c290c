// What the office is asked, and by whom.
//
// Types alone. The rows of a script and the roads of HTTP are read as asks, and the office decides them. It must never
// know how an ask is spelled, nor what is decided.
#![tactic(auto)]

pub mod ask;

pub use ask::{Ask, By, Request};
