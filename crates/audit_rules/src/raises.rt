// Which raises a replay takes.
ghost use Rattle.std.specs.Prelude.{◌≡◌, ◌≤◌};
ghost use Rattle.office_base.specs.Limits.{most_raised_seats};
ghost use Rattle.audit_rules.specs.Raises.{lifts};

use kept_rows::RaiseRow;
use office_asks::By;
use office_base::StepKind;
use office_base::limits::{MOST_MATRIX_SEATS, MOST_STEP_SEATS};
use office_moves::RaiseFacts;

/// Returns whether the clerk raises seats anew, in the open window, before the last one, to a number that the step may have.
/// It takes no memory.
pub fn lifts(looks: &RaiseFacts, by: By, row: RaiseRow) -> bool
    requires few { looks.now.seats ≤ looks.now.total }
    requires all { looks.now.total ≤ most_raised_seats }
    ensures { result ≡ lifts looks.now by row }
{
    by == By::Clerk
        && !looks.again
        && row.window == looks.window
        && looks.window < looks.rounds
        && !matches!(row.step, StepKind::Dereserved)
        && looks.seats < row.seats
        && u32::from(row.seats) <= MOST_STEP_SEATS
        && looks.total - u32::from(looks.seats) + u32::from(row.seats) <= MOST_MATRIX_SEATS
}
