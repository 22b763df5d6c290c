// The layers of HTTP on bytes that a person wrote down, the desk over a small book of numbers, and the office over HTTP on its calls:
// how sessions end, what becomes of them where a link, a door or a keeper fails at a call, and workers who wait for each other.
//
// No crate depends on it. Its tests wait and start threads. What each call does is proved in its own layer, and what bytes over a
// socket can show is tried outside, in checks/.
#![tactic(auto)]

#[cfg(test)]
mod asks;
mod book;
#[cfg(test)]
mod desk;
#[cfg(test)]
mod doors;
#[cfg(test)]
mod exchanges;
#[cfg(test)]
mod handover;
#[cfg(test)]
mod heads;
#[cfg(test)]
mod links;
#[cfg(test)]
mod messages;
#[cfg(test)]
mod opened;
#[cfg(test)]
mod replies;
mod rows;
#[cfg(test)]
mod sessions;

pub use book::{Book, Row};
pub use rows::{count_rows, write, write_all};
