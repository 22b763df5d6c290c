// A piece written whole over a link.
ghost use Rattle.std.specs.Prelude.{◌≡◌, ◌<◌, ◌≤◌, ℕ, length, take, OnOk, OnErr};
ghost use Rattle.office_base.specs.Outside.{Rose, Appends};

use crate::Link;
use office_base::Failed;

/// Writes a piece whole. After an `Err` a prefix of it was written, shorter than the piece.
/// It stops at the first failure:
/// if it returns `Ok`, the link did not fail.
/// What is left to read stays.
pub fn write_link<L: Link>(link: &mut L, piece: &[u8]) -> Result<(), Failed>
    ensures ok { OnOk result (Appends piece.now (L.written link.old) (L.written link.new)) }
    ensures err { OnErr result ((n : ℕ) × (n < length piece.now)
        × Appends (take n piece.now) (L.written link.old) (L.written link.new)) }
    ensures apart { L.left link.new ≡ L.left link.old }
    ensures cause { OnErr result (Rose (L.faults link.old) (L.faults link.new)) }
    ensures count { L.faults link.old ≤ L.faults link.new }
    ensures steady { OnOk result (L.faults link.new ≡ L.faults link.old) }
{
    let mut rest = piece;
    while !rest.is_empty() {
        let count = link.write(rest)?;
        (_, rest) = rest.split_at(count);
    }
    Ok(())
}
