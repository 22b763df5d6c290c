// The effective lists of a round, along the register.
ghost use Rattle.std.specs.Prelude.{◌≡◌, ℕ, List, Some, IfOk, length, slice_get};
ghost use Rattle.rounds.specs.Rule.{AreSeeks};
ghost use Rattle.seeks.specs.Seek.{AreBelow, seek_leaves};
ghost use Rattle.apply_engine.specs.Engine.{lists_in};
ghost use Rattle.apply_engine.specs.Made.{leaves_along};

use choice_lists::{Choices, FlatLists};
use office_base::{OutOfMemory, ProgId};
use seat_matrix::Matrix;
use seeks::{Seek, push_left};
use std::alloc::Global;

/// What each seek leaves of the candidate's list.
pub(crate) fn effective(
    alloc: Global,
    matrix: &Matrix,
    choices: &Choices,
    seeks: &[Seek],
) -> Result<FlatLists<ProgId>, OutOfMemory>
    requires seeks { AreSeeks (lists_in choices.now) seeks.now }
    requires below { (i : ℕ) (list : List ProgId) → slice_get (lists_in choices.now) i ≡ Some list
        → AreBelow (length matrix.now.programmes) list }
    ensures { IfOk result (λ lists.
        lists ≡ leaves_along matrix.now (lists_in choices.now) seeks.now) }
{
    let mut lists = FlatLists::new(alloc);
    let mut left = Vec::new(alloc);
    for (at, seek) in seeks.iter().enumerate() {
        left.clear();
        push_left(&mut left, matrix, *seek, choices.list_at(at))?;
        lists.push(&left)?;
    }
    Ok(lists)
}
