// Certificates: which protections a list of persons fills.
//
// `Cert::check` returns whether pairs place some of the admitted on the protected positions. `canonical_pairs` writes
// the one certificate that is shown: the first of the longest placements, down the merit order. Every crate that
// publishes or checks a step depends on it. It knows of persons, pairs and protections alone. It never knows of
// seats, of how the admitted were chosen, or of programmes.
#![tactic(auto)]

mod bounds;
pub mod canonical;
pub mod cert;
pub mod laws;

pub use canonical::canonical_pairs;
pub use cert::Cert;
