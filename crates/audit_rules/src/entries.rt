// The entries of all programmes' lists.
ghost use Rattle.std.specs.Prelude.{◌≡◌, ◌<◌, ◌≤◌, ◌^◌, ◌++◌, IfOk, OnOk, length, take};
ghost use Rattle.list_audit.specs.Clauses.{list_of_step};
ghost use Rattle.audit_rules.specs.Comes.{told_by};
ghost use Rattle.audit_rules.specs.Entries.{entries_from, of_kind, of_programme, of_step};

use list_texts::ListRead;
use office_base::{
    ALL_STEPS, CandId, OutOfMemory, Person, ProgId, Seat, SeatKind, StepKind, step_number,
};
use programme_lists::Programme;
use std::alloc::Global;

/// That a list names a candidate, for a seat of its programme under its step.
#[derive(Clone, Copy)]
pub struct Entry {
    pub seat: Seat,
    pub cand: CandId,
}

/// Puts the entries of one step's list after the others.
fn push_step(
    entries: &mut Vec<Entry>,
    prog: ProgId,
    step: StepKind,
    named: &[Person],
) -> Result<(), OutOfMemory>
    ensures { OnOk result (entries.new.items ≡ entries.old.items ++ of_step prog.0 step named.now) }
{
    for person in named {
        entries.push(Entry {
            seat: Seat {
                prog,
                step: SeatKind::Under(step),
            },
            cand: person.id,
        })?;
    }
    Ok(())
}

/// Puts the entries of a step of a programme after the others.
fn push_kind(
    entries: &mut Vec<Entry>,
    prog: ProgId,
    programme: &Programme,
    step: StepKind,
) -> Result<(), OutOfMemory>
    ensures { OnOk result
        (entries.new.items ≡ entries.old.items ++ of_kind prog.0 programme.now step) }
{
    let list = &programme.steps[usize::from(step_number(step))];
    push_step(entries, prog, step, list.admitted.as_slice())
}

/// Puts the entries of a programme after the others.
fn push_programme(
    entries: &mut Vec<Entry>,
    prog: ProgId,
    programme: &Programme,
) -> Result<(), OutOfMemory>
    ensures { OnOk result
        (entries.new.items ≡ entries.old.items ++ of_programme prog.0 programme.now) }
{
    for step in ALL_STEPS {
        push_kind(entries, prog, programme, step)?;
    }
    Ok(())
}

/// The entries of the lists of all programmes, one programme after another.
pub(crate) fn entries(alloc: Global, lists: &[ListRead]) -> Result<Vec<Entry>, OutOfMemory>
    requires { length lists.now ≤ 2000 }
    ensures { IfOk result (λ entries. entries.items ≡ entries_from 0 (told_by lists.now)) }
{
    let mut entries = Vec::new(alloc);
    for (p, read) in lists.iter().enumerate() {
        push_programme(&mut entries, ProgId(p as u16), &read.programme)?;
    }
    Ok(entries)
}
