// Links and doors. What an object holds is visible or hidden; its count of faults is always visible.
ghost use Rattle.std.specs.Prelude.{◌≤◌, ◌<◌, ◌+◌, ◌≡◌, ℕ, List, Option, Some, length, IfOk, OnOk, OnErr, IfSome, IfNone};
ghost use Rattle.office_base.specs.Outside.{Rose, TakesPrefix, ComesAtTheEnd, AppendsPrefix};
ghost use Rattle.office_links.specs.Visits.{Visits, GivesFirst, TakesBack, AreComing};

use office_base::Failed;

/// What one connection is read from and written to.
pub trait Link {
    /// The bytes left to read, or None if they are hidden.
    ghost left: { Self → Option (List ℕ) };

    /// The bytes written so far, or None if they are hidden.
    ghost written: { Self → Option (List ℕ) };

    /// How often the link has failed, in both directions together. It never falls, and stays at 2^64 - 1.
    ghost faults: { Self → ℕ };

    /// Puts bytes at the start of the buffer and says how many. 0 at a buffer that is not empty is the end of input.
    /// What follows them in the buffer is left open. It returns `Failed` only if the link failed in this call:
    /// its count rose.
    fn read(&mut self, buf: &mut [u8]) -> Result<usize, Failed>
        ensures within { IfOk result (λ n. n ≤ length buf.old) }
        ensures taken { IfOk result (λ n. TakesPrefix n (left self.old) (left self.new) buf.new) }
        ensures ended { IfOk result (λ n. ComesAtTheEnd n (length buf.old) (left self.old)) }
        ensures kept { OnErr result (left self.new ≡ left self.old) }
        ensures apart { written self.new ≡ written self.old }
        ensures count { faults self.old ≤ faults self.new }
        ensures steady { OnOk result (faults self.new ≡ faults self.old) }
        ensures cause { OnErr result (Rose (faults self.old) (faults self.new)) };

    /// Takes a prefix of the piece and says how long it is: at least one byte, unless the piece is empty.
    /// It returns `Failed` only if the link failed in this call:
    /// its count rose.
    fn write(&mut self, piece: &[u8]) -> Result<usize, Failed>
        ensures within { IfOk result (λ n. n ≤ length piece.now) }
        ensures some { IfOk result (λ n. 0 < length piece.now → 0 < n) }
        ensures appended { IfOk result (λ n.
            AppendsPrefix n piece.now (written self.old) (written self.new)) }
        ensures kept { OnErr result (written self.new ≡ written self.old) }
        ensures apart { left self.new ≡ left self.old }
        ensures count { faults self.old ≤ faults self.new }
        ensures steady { OnOk result (faults self.new ≡ faults self.old) }
        ensures cause { OnErr result (Rose (faults self.old) (faults self.new)) };
}

/// What connections come from, and are given back to.
pub trait Door {
    type Conn: Link;

    /// How many connections are still to come.
    ghost to_come: { Self → ℕ };

    /// How many connections are out: given, and not given back.
    ghost out: { Self → ℕ };

    /// The connections still to come and those given back, or None if they are hidden.
    ghost told: { Self → Option (Visits Self.Conn) };

    /// How often the door has failed. It never falls, and stays at 2^64 - 1.
    ghost faults: { Self → ℕ };

    /// Returns the next connection, and None if and only if none is still to come.
    /// It returns `Failed` only if the door failed in this call:
    /// its count rose, and then no connection came.
    fn accept(&mut self) -> Result<Option<Self::Conn>, Failed>
        ensures none { IfOk result (λ r.
            IfNone r ((to_come self.old ≡ 0) × (to_come self.new ≡ 0))) }
        ensures none_same { IfOk result (λ r.
            IfNone r ((out self.new ≡ out self.old) × (told self.new ≡ told self.old))) }
        ensures some { IfOk result (λ r.
            IfSome r (λ conn. to_come self.old ≡ to_come self.new + 1)) }
        ensures gives { IfOk result (λ r. IfSome r (λ conn. (out self.new ≡ out self.old + 1)
            × GivesFirst (told self.old) conn (told self.new))) }
        ensures kept { OnErr result ((to_come self.new ≡ to_come self.old)
            × (out self.new ≡ out self.old) × (told self.new ≡ told self.old)) }
        ensures count { faults self.old ≤ faults self.new }
        ensures steady { OnOk result (faults self.new ≡ faults self.old) }
        ensures cause { OnErr result (Rose (faults self.old) (faults self.new)) };

    /// Takes a connection back. It allocates nothing.
    fn give_back(&mut self, conn: Self::Conn)
        requires { 1 ≤ out self.old }
        ensures numbers { (out self.old ≡ out self.new + 1)
            × (to_come self.new ≡ to_come self.old) }
        ensures told { TakesBack (told self.old) conn (told self.new) }
        ensures count { faults self.new ≡ faults self.old };

    /// If the connections still to come are visible, this is their number.
    ghost told_number: { (door : Self) → AreComing (to_come door) (told door) };
}
