// Worked scripts, run on the definitions of the office, and the readers of published texts on texts from outside.
//
// No crate depends on it: the layers under it are proved once, without tests. In `worked_scripts` decisions, replies, next lists and
// final rows are computed as they are defined, over rounds that are given. What a text is read as is proved in its own layer; the
// tests have lines that no input of the program brings. Spellings, bundles, sheets, requests and replies are in cases/, because the
// program prints them.
#![tactic(auto)]

#[cfg(test)]
mod lists;
#[cfg(test)]
mod readers;
#[cfg(test)]
mod season_lines;
pub mod worked_scripts;
