// Pairs that are a certificate of the admitted, and pairs that are none.
use crate::candidates::{D, W, candidate};
use office_base::{CandId, OutOfMemory, Pair, Pairs, Protections};
use slot_cert::Cert;
use std::alloc::Global;

/// Candidates with slots, and whether they are a certificate: they are one in any order.
const SHOWN: &[(&[(u32, u8)], bool)] = &[
    (&[(4, 1), (2, 1), (3, 0)], true),
    // a person is in two pairs
    (&[(2, 0), (2, 1)], false),
    // a trait is not held
    (&[(2, 0), (3, 1)], false),
    // one too many on a trait
    (&[(2, 0), (3, 0)], false),
    // a stranger is in a pair
    (&[(2, 0), (5, 1)], false),
    // no trait has this number
    (&[(2, 0), (4, 6)], false),
];

fn cert(alloc: Global, shown: &[(u32, u8)]) -> Result<Cert, OutOfMemory> {
    let mut pairs = Pairs::new(alloc);
    for (number, slot) in shown {
        pairs.push(Pair {
            cand: CandId(*number),
            slot: *slot,
        })?;
    }
    Ok(Cert { pairs })
}

// Returns whether the check says what is expected of the pairs: that they are a certificate, or that they are none.
fn is_told(alloc: Global, shown: &[(u32, u8)], holds: bool) -> bool {
    let admitted = [candidate(2, W + D), candidate(3, W), candidate(4, D)];
    let protections = Protections {
        counts: [1, 2, 0, 0, 0, 0],
    };
    match cert(alloc, shown) {
        Ok(cert) => cert.check(&protections, &admitted) == holds,
        Err(_) => false,
    }
}

#[test]
fn tells_pairs_that_hold_from_others(rt: HostRuntime) {
    let alloc = rt.alloc();
    let told = SHOWN
        .iter()
        .all(|(shown, holds)| is_told(alloc, shown, *holds));
    assert!(rt; told);
}
