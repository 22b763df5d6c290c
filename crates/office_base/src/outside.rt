// The outside as the office sees it. What an object holds is visible or hidden; its count of faults is always visible.
ghost use Rattle.std.specs.Prelude.{◌≤◌, ◌<◌, ◌≡◌, ℕ, List, Option, length, IfOk, OnOk, OnErr};
ghost use Rattle.office_base.specs.Outside.{Rose, TakesPrefix, ComesAtTheEnd, AppendsPrefix};

use crate::Failed;

/// What bytes are read from.
pub trait Source {
    /// The bytes left, or None if they are hidden.
    ghost left: { Self → Option (List ℕ) };

    /// How often the source has failed. It never falls, and stays at 2^64 - 1.
    ghost faults: { Self → ℕ };

    /// Puts bytes at the start of the buffer and says how many. 0 at a buffer that is not empty is the end of input.
    /// What follows them in the buffer is left open. It returns `Failed` only if the source failed in this call:
    /// its count rose.
    fn read(&mut self, buf: &mut [u8]) -> Result<usize, Failed>
        ensures within { IfOk result (λ n. n ≤ length buf.old) }
        ensures taken { IfOk result (λ n. TakesPrefix n (left self.old) (left self.new) buf.new) }
        ensures ended { IfOk result (λ n. ComesAtTheEnd n (length buf.old) (left self.old)) }
        ensures kept { OnErr result (left self.new ≡ left self.old) }
        ensures count { faults self.old ≤ faults self.new }
        ensures steady { OnOk result (faults self.new ≡ faults self.old) }
        ensures cause { OnErr result (Rose (faults self.old) (faults self.new)) };
}

/// What bytes are written to.
pub trait Sink {
    /// The bytes written so far, or None if they are hidden.
    ghost written: { Self → Option (List ℕ) };

    /// How often the sink has failed. It never falls, and stays at 2^64 - 1.
    ghost faults: { Self → ℕ };

    /// Takes a prefix of the piece and says how long it is: at least one byte, unless the piece is empty.
    /// It returns `Failed` only if the sink failed in this call:
    /// its count rose.
    fn write(&mut self, piece: &[u8]) -> Result<usize, Failed>
        ensures within { IfOk result (λ n. n ≤ length piece.now) }
        ensures some { IfOk result (λ n. 0 < length piece.now → 0 < n) }
        ensures appended { IfOk result (λ n.
            AppendsPrefix n piece.now (written self.old) (written self.new)) }
        ensures kept { OnErr result (written self.new ≡ written self.old) }
        ensures count { faults self.old ≤ faults self.new }
        ensures steady { OnOk result (faults self.new ≡ faults self.old) }
        ensures cause { OnErr result (Rose (faults self.old) (faults self.new)) };
}
