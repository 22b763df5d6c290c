// A season that is kept over a database in memory, and in files whose disk stops at each of its calls; and the keeper asked for
// what the program never asks. What is not allowed is a fault, and leaves the records unchanged.
//
// It has tests alone, so no crate depends on it. What a keeper over a database holds, and what a crash leaves of it, is proved
// (`keeper_sqlite`). Here the commands run over one as they do in the program, down to a disk that stops. cases/stores.txt shows
// what the program puts into a file, loads from it, and takes for a fault.
#![tactic(auto)]

#[cfg(test)]
mod crashes;
#[cfg(test)]
mod databases;
#[cfg(test)]
mod records;
#[cfg(test)]
mod seasons;
#[cfg(test)]
mod stores;
