// The programmes of a round: before anybody applies, and their lists once all have applied.
ghost use Rattle.std.specs.Prelude.{IfOk};
ghost use Rattle.office_base.specs.Version.{IsVersion};
ghost use Rattle.apply_engine.specs.Engine.{AreBegun, AreUntried, HasRun, Setting};
ghost use Rattle.apply_engine.specs.Made.{AreListed};

use crate::applications::Applied;
use office_base::{Listed, OutOfMemory, ProgId};
use open_then_category::{ProgrammeState, Tried, lists_of};
use rounds::Programmes;
use seat_matrix::Matrix;
use std::alloc::Global;

/// Each programme, admitting nobody yet.
pub(crate) fn begin_states(
    alloc: Global,
    matrix: &Matrix,
    version: u8,
) -> Result<Vec<ProgrammeState>, OutOfMemory>
    requires { IsVersion version }
    ensures { IfOk result (λ states. AreBegun version matrix.now states.items) }
{
    let count = matrix.count();
    let mut states = Vec::with_capacity(alloc, usize::from(count))?;
    for prog in 0..count {
        let state = ProgrammeState::new(alloc, matrix, version, ProgId(prog))?;
        states.push(state)?;
    }
    Ok(states)
}

/// For each programme, that nobody tried it yet.
pub(crate) fn begin_tallies(alloc: Global, matrix: &Matrix) -> Result<Vec<Tried>, OutOfMemory>
    ensures { IfOk result (λ tallies. AreUntried matrix.now tallies.items) }
{
    let count = matrix.count();
    let mut tallies = Vec::with_capacity(alloc, usize::from(count))?;
    for prog in 0..count {
        let seats = matrix.programme(ProgId(prog));
        tallies.push(Tried::new(seats.list))?;
    }
    Ok(tallies)
}

/// The lists of each programme, once all have applied.
pub(crate) fn list_programmes(alloc: Global, applied: &Applied) -> Result<Programmes, OutOfMemory>
    ghost over: { Setting }
    requires { HasRun over applied.now.next.items
        applied.now.states.items applied.now.tallies.items }
    ensures { IfOk result (λ programmes. AreListed over applied.now.next.items programmes) }
{
    let mut programmes = Vec::with_capacity(alloc, applied.states.len())?;
    for (prog, state) in applied.states.iter().enumerate() {
        let programme = lists_of(alloc, state, &applied.tallies[prog])?;
        programmes.push(programme)?;
    }
    Ok(Listed::from_vec(programmes))
}
