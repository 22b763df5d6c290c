// The places of candidates in a merit list.
ghost use Rattle.std.specs.Prelude.{◌≡◌, ◌<◌, ◌≤◌, ◌-◌, IfOk, OnOk, length};
ghost use Rattle.std.specs.List.{range_with_len};
ghost use Rattle.season_generator.specs.Bundle.{exchanged, places};
ghost use Rattle.season_generator.specs.Draws.{state_after};

use crate::draws::Draws;
use office_base::OutOfMemory;
use std::alloc::Global;

impl Draws {
    /// Draws the places of `n` candidates in a list: those from 1 to `n`, each once.
    pub(crate) fn places(&mut self, alloc: Global, n: u32) -> Result<Vec<u32>, OutOfMemory>
        requires { 1 ≤ n }
        ensures places { IfOk result (λ held. held.items ≡ places n self.old.state) }
        ensures len { IfOk result (λ held. length held.items ≡ n) }
        ensures state { OnOk result (self.new.state ≡ state_after (n - 1) self.old.state) }
    {
        let mut held = in_order(alloc, n)?;
        self.exchange(held.as_mut_slice());
        Ok(held)
    }

    /// Exchanges each place from the last one down to the second with one drawn among those up to it.
    fn exchange(&mut self, held: &mut [u32])
        requires some { 1 ≤ length held.old }
        requires bound { length held.old < 4294967296 }
        ensures places { held.new ≡ exchanged self.old.state (length held.old - 1) held.old }
        ensures state { self.new.state ≡ state_after (length held.old - 1) self.old.state }
    {
        let mut last = held.len() - 1;
        while 0 < last {
            let other = self.draw(last as u32 + 1);
            held.swap(last, other as usize);
            last -= 1;
        }
    }
}

/// The places from 1 to `n`, in their order.
fn in_order(alloc: Global, n: u32) -> Result<Vec<u32>, OutOfMemory>
    ensures items { IfOk result (λ held. held.items ≡ range_with_len 1 n) }
    ensures len { IfOk result (λ held. length held.items ≡ n) }
{
    let mut held = Vec::with_capacity(alloc, n as usize)?;
    for before in 0..n {
        held.push(before + 1)?;
    }
    Ok(held)
}
