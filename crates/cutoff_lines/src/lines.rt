// The cutoffs of a step for all sets of traits, as lines.
ghost use Rattle.std.specs.Prelude.{◌≡◌, ◌≤◌, sum, IfOk};
ghost use Rattle.merit_choice.specs.State.{IsStepKept};
ghost use Rattle.cutoff_lines.specs.Found.{holding};
ghost use Rattle.cutoff_lines.specs.Lines.{AreFew, AreLinesOf, cutoff_by, is_wider, read_lines, wider_of};

use crate::spare::{cutoff_with, needed_of};
use office_base::{ListId, Listed, OutOfMemory, Person, Protections, TraitSet};
use placements::is_within;
use std::alloc::Global;
use step_cutoffs::Cutoff;
use step_cutoffs::laws::more_traits_widen;

/// A set of traits, and the cutoff for those who hold them all.
#[derive(Clone, Copy, PartialEq, Eq)]
pub struct CutoffLine {
    pub traits: TraitSet,
    pub cutoff: Cutoff,
}

/// How many sets of six traits there are.
const SETS: u8 = 64;

/// Whether the first cutoff admits more places than the second.
fn is_wider(first: Cutoff, second: Cutoff) -> bool
    ensures { result ≡ is_wider first second }
{
    match (first, second) {
        (Cutoff::UpTo { last }, Cutoff::UpTo { last: other }) => other < last,
        (Cutoff::UpTo { .. } | Cutoff::Anybody, Cutoff::Nobody) => true,
        (Cutoff::Anybody, Cutoff::UpTo { .. }) => true,
        _ => false,
    }
}

/// The wider one of two cutoffs.
fn wider_of(first: Cutoff, second: Cutoff) -> Cutoff
    ensures { result ≡ wider_of first second }
{
    if is_wider(second, first) {
        second
    } else {
        first
    }
}

/// The cutoff of a line for these traits: nobody, unless they hold all of the line.
fn cutoff_by(line: &CutoffLine, traits: TraitSet) -> Cutoff
    ensures { result ≡ cutoff_by traits line.now }
{
    if is_within(line.traits, traits) {
        line.cutoff
    } else {
        Cutoff::Nobody
    }
}

/// Reads the cutoff of these traits from lines: the widest of those whose traits are all among these.
pub fn read_lines(lines: &[CutoffLine], traits: TraitSet) -> Cutoff
    ensures { result ≡ read_lines traits lines.now }
{
    let mut widest = Cutoff::Nobody;
    let mut at = lines.len();
    while at > 0 {
        at -= 1;
        widest = wider_of(cutoff_by(&lines[at], traits), widest);
    }
    widest
}

/// Returns the lines of a step, from those whom it admitted. What a reader reads from them for any traits is the
/// cutoff of these traits. There are no more lines than sets of the traits that are protected. It walks through those
/// held once for their marks, and at most once for each of the 64 sets.
pub fn cutoffs_of(
    alloc: Global,
    list: ListId,
    seats: u32,
    protections: &Protections,
    held: &[Person],
) -> Result<Listed<CutoffLine>, OutOfMemory>
    requires kept { IsStepKept (holding list seats protections.now held.now) }
    requires few { sum protections.now.counts ≤ 65535 }
    ensures lines { IfOk result (λ lines.
        AreLinesOf (holding list seats protections.now held.now) lines) }
    ensures narrow { IfOk result (λ lines. AreFew lines) }
{
    more_traits_widen();
    let marked = needed_of(alloc, list, protections, held)?;
    let mut lines = Listed::new(alloc);
    for n in 0..SETS {
        let traits = TraitSet(n);
        let cutoff = cutoff_with(list, seats, held, &marked, traits);
        if is_wider(cutoff, read_lines(lines.as_slice(), traits)) {
            lines.push(CutoffLine { traits, cutoff })?;
        }
    }
    Ok(lines)
}
