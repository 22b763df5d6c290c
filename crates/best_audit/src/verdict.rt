// The second verdict on a season's papers.
use office_base::CandId;

/// Says whether every published round is the best one.
#[derive(Clone, Copy, PartialEq, Eq)]
pub enum BestVerdict {
    /// Every published round is the best one.
    Best,
    /// The first round that is not the best one, from 1, and the first candidate of the register whom the best round gives a better place.
    NotBest { round: u16, cand: CandId },
}
