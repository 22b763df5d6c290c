// What can be placed on protected positions: the laws of placements, over the definitions of the base alone.
//
// The matching, the certificate, the choice of a step and the plain programs depend on it. It knows of no algorithm:
// it only distinguishes sets of traits, and counts their positions.
#![tactic(auto)]

pub mod demand;

pub use demand::{is_within, positions};
