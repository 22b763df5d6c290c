// What a candidate seeks of their list.
ghost use Rattle.std.specs.Prelude.{◌≡◌, length};
ghost use Rattle.choice_lists.specs.Choices.{list_of};
ghost use Rattle.seeks.specs.Seek.{AreBelow, IsWithinList, is_listed, seek_leaves};

use crate::choices::Choices;
use office_base::{CandId, ProgId};
use seat_matrix::Matrix;
use seeks::{Seek, is_sought};

/// Returns whether a candidate seeks a programme: it is among those that the seek leaves of the candidate's list.
/// Allocates nothing.
pub fn sought(choices: &Choices, matrix: &Matrix, cand: CandId, seek: Seek, prog: ProgId) -> bool
    requires place { IsWithinList (list_of choices.now cand.0) seek }
    requires known { AreBelow (length matrix.now.programmes) (list_of choices.now cand.0) }
    ensures { result ≡ is_listed prog.0 (seek_leaves matrix.now seek (list_of choices.now cand.0)) }
{
    is_sought(matrix, seek, choices.list(cand), prog)
}
