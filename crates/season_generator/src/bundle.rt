// The generated bundle.
ghost use Rattle.std.specs.Prelude.{◌≡◌, ◌≤◌, ◌-◌, ◌++◌, IfOk, OnOk, length};
ghost use Rattle.office_base.specs.Limits.{most_generated};
ghost use Rattle.season_generator.specs.Bundle.{generated};

use crate::candidates::{push_choices, push_register};
use crate::draws::Draws;
use crate::programmes::push_matrix;
use crate::requests::push_requests;
use office_base::{OutOfMemory, Text};
use std::alloc::Global;

/// The most candidates that a generated season may have.
pub const MOST_GENERATED: u32 = 100_000;

/// The most bytes of the rows of a candidate: in the register, of choices, and in six windows.
const LONGEST_ROWS: usize = 411;

/// The most bytes of all other rows.
const LONGEST_HEADS: usize = 16_384;

/// The season bundle of `n` candidates, from 1 to 100,000, that a seed gives: six rounds, 100 programmes of ten institutes over two
/// merit lists, forty choices a candidate, and a script in which each candidate answers once in each window after window 0. The same
/// numbers give the same bytes.
#[tactic(auto, unfolding(crate::specs::Bundle::generated))]
pub fn generate(alloc: Global, n: u32, seed: u32) -> Result<Text, OutOfMemory>
    requires low { 1 ≤ n }
    requires high { n ≤ most_generated }
    ensures { IfOk result (λ text. text ≡ generated n seed) }
{
    let mut draws = Draws::new(seed);
    let first = draws.places(alloc, n)?;
    let second = draws.places(alloc, n)?;
    let mut out = Text::with_capacity(alloc, n as usize * LONGEST_ROWS + LONGEST_HEADS)?;
    out.extend_from_slice(b"office bundle 1\n[season]\nrounds,6\nclerk,clerk0001\n")?;
    push_register(&mut out, draws, first.as_slice(), second.as_slice())?;
    push_matrix(&mut out, n)?;
    push_choices(&mut out, &mut draws, n)?;
    push_requests(&mut out, draws, n)?;
    Ok(out)
}
