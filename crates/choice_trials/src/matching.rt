// Persons who ask for positions on two traits, one after another.
use crate::candidates::{D, W, candidate};
use office_base::{CandId, ListId, OutOfMemory, Protections};
use slot_matching::{Augment, Matching};
use std::alloc::Global;

// Whether four persons who ask in turn are answered as they should, and the last one can take the place of the third.
fn are_answered(alloc: Global) -> Result<bool, OutOfMemory> {
    let protections = Protections {
        counts: [1, 1, 0, 0, 0, 0],
    };
    let mut matching = Matching::new(alloc, protections, ListId(1))?;
    let worst = Some(CandId(3));
    let told = matching.augment(&candidate(1, 0)) == (Augment::Held { worst: None })
        && matching.augment(&candidate(2, W + D)) == Augment::Raised
        && matching.augment(&candidate(3, W)) == Augment::Raised
        && matching.augment(&candidate(4, D)) == (Augment::Held { worst })
        && {
            matching.exchange(CandId(3), &candidate(4, D));
            matching.honoured() == 2 && matching.members().len() == 2
        };
    Ok(told)
}

#[test]
fn moves_and_holds(rt: HostRuntime) {
    assert!(rt; are_answered(rt.alloc()) == Ok(true));
}
