// The program over objects in memory and over streams that fail: what no input of its own can show.
//
// It has tests alone, so no crate depends on it.
// Worked inputs and damaged stores are in cases/, and a plain slow office is in checks/.
// The built program is compared with these.
#![tactic(auto)]

#[cfg(test)]
mod commands;
#[cfg(test)]
mod generated_runs;
#[cfg(test)]
mod resumes;
#[cfg(test)]
mod services;
#[cfg(test)]
mod unspelt;
