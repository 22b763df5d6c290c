// The lines of a programme's lists, one list after another.
ghost use Rattle.std.specs.Prelude.{◌≡◌, ◌++◌, IfOk, OnOk, map};
ghost use Rattle.seat_matrix.specs.Seats.{AreProgrammeSeats};
ghost use Rattle.list_cutoffs.specs.Cutoffs.{AreCutoffsIn, AreKeptListed, under};

use cutoff_lines::{CutoffLine, cutoffs_of};
use office_base::{Listed, OutOfMemory, StepKind, TraitSet};
use programme_lists::{Programme, ProgrammeSeats};
use std::alloc::Global;
use step_cutoffs::Cutoff;

/// Says with which places a step admits a person who may stand for it and holds all of these traits.
#[derive(Clone, Copy, PartialEq, Eq)]
pub struct StepCutoff {
    pub step: StepKind,
    pub traits: TraitSet,
    pub cutoff: Cutoff,
}

/// Puts lines at the end, as lines of one step. If memory runs out, some of them are at the end, in their order.
fn push_under(
    cutoffs: &mut Listed<StepCutoff>,
    step: StepKind,
    lines: &[CutoffLine],
) -> Result<(), OutOfMemory>
    ensures { OnOk result (cutoffs.new ≡ cutoffs.old ++ map (under step) lines.now) }
{
    for line in lines {
        cutoffs.push(StepCutoff {
            step,
            traits: line.traits,
            cutoff: line.cutoff,
        })?;
    }
    Ok(())
}

/// Returns the cutoffs of a programme in a published round, from its lists there: for each step, in the order of the
/// lists, the lines that give the cutoff of each set of traits, in the order of the sets' numbers. No line can be left
/// out, and a step that admits nobody has none. Of the seats of the matrix it looks at the merit list and the
/// protections alone. Each line looks through those whom its list admits.
pub fn cutoffs_in(
    alloc: Global,
    seats: &ProgrammeSeats,
    lists: &Programme,
) -> Result<Listed<StepCutoff>, OutOfMemory>
    requires seats { AreProgrammeSeats seats.now }
    requires kept { AreKeptListed seats.now lists.now.steps }
    ensures { IfOk result (λ cutoffs. AreCutoffsIn seats.now lists.now.steps cutoffs) }
{
    let mut cutoffs = Listed::new(alloc);
    for list in lists.steps.as_slice() {
        let protections = seats.of(list.kind).protections;
        let held = list.admitted.as_slice();
        let lines = cutoffs_of(alloc, seats.list, list.seats, &protections, held)?;
        push_under(&mut cutoffs, list.kind, lines.as_slice())?;
    }
    Ok(cutoffs)
}
