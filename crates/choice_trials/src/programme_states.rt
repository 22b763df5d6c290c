// What a programme holds after people came to it one at a time, compared with its choice from all of them.
ghost use Rattle.std.specs.Prelude.{◌≡◌, ◌<◌, IfOk, length};
ghost use Rattle.office_base.specs.Version.{IsVersion};
ghost use Rattle.programme_lists.specs.Chosen.{everybody};
ghost use Rattle.open_then_category.specs.State.{admissions_of};

use crate::candidates::may_all_apply;
use office_base::{ALL_STEPS, OutOfMemory, Person, ProgId};
use open_then_category::{ProgrammeState, programme_choice};
use seat_matrix::Matrix;
use std::alloc::Global;

/// A bundle's version, a matrix of programmes and one of its programmes.
#[derive(Drop)]
pub struct Chooser<'a> {
    pub version: u8,
    pub matrix: &'a Matrix,
    pub prog: ProgId,
}

/// Everybody whom the programme admits, step after step.
pub fn held_by(alloc: Global, state: &ProgrammeState) -> Result<Vec<Person>, OutOfMemory>
    ensures { IfOk result (λ people. people.items ≡ everybody (admissions_of state.now)) }
{
    let mut all = Vec::new(alloc);
    for step in ALL_STEPS {
        all.extend_from_slice(state.admitted(step))?;
    }
    Ok(all)
}

/// Whether each step admits whom it does in the choice of the programme from all who came.
pub fn is_choice_of(
    alloc: Global,
    chooser: &Chooser<'_>,
    came: &[Person],
    state: &ProgrammeState,
) -> Result<bool, OutOfMemory>
    requires programme { chooser.now.prog.0 < length chooser.now.matrix.now.programmes }
    requires version { IsVersion chooser.now.version }
{
    if !may_all_apply(chooser.matrix.list(chooser.prog), came) {
        return Ok(false);
    }
    let afresh = programme_choice(alloc, chooser.matrix, chooser.version, chooser.prog, came)?;
    Ok(afresh.steps.iter().all(|list| list.admitted.as_slice() == state.admitted(list.kind)))
}
