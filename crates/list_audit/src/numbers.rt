// The numbers that a list shows: its seats and its candidates.
ghost use Rattle.std.specs.Prelude.{◌≡◌, ◌↔◌, ◌+◌, IsTrue};
ghost use Rattle.office_base.specs.declared.step.StepKind.TheVariants.{Dereserved as DereservedStep};
ghost use Rattle.seat_matrix.specs.Seats.{AreProgrammeSeats};
ghost use Rattle.list_audit.specs.Clauses.{HasSeats, list_of_step, named_by, seats_held, seats_shared};

use office_base::{CATEGORY_STEPS, StepKind, gives_up, step_number};
use programme_lists::{Programme, StepList};
use seat_matrix::ProgrammeSeats;

/// The list of a step.
pub(crate) fn list_of(programme: &Programme, kind: StepKind) -> &StepList
    ensures { result.now ≡ list_of_step programme.now kind }
{
    &programme.steps[usize::from(step_number(kind))]
}

/// The seats of the categories whose unfilled seats go to the last step.
fn seats_shared(version: u8, seats: &ProgrammeSeats) -> u128
    requires { AreProgrammeSeats seats.now }
    ensures { result ≡ seats_shared version seats.now }
{
    let mut shared = 0;
    for row in CATEGORY_STEPS {
        if gives_up(row, version) {
            shared += u128::from(seats.of(row.step).seats);
        }
    }
    shared
}

/// Returns the seats that the last list shows, with the persons whom the lists of those categories name.
fn seats_told(version: u8, programme: &Programme) -> u128
    ensures { result ≡ (list_of_step programme.now DereservedStep).seats
        + seats_held version (named_by programme.now) }
{
    let mut told = u128::from(list_of(programme, StepKind::Dereserved).seats);
    for row in CATEGORY_STEPS {
        if gives_up(row, version) {
            told += list_of(programme, row.step).admitted.len() as u128;
        }
    }
    told
}

/// Returns whether the list of a step shows as many seats as the step has.
pub(crate) fn has_seats(
    version: u8,
    seats: &ProgrammeSeats,
    programme: &Programme,
    kind: StepKind,
) -> bool
    requires { AreProgrammeSeats seats.now }
    ensures { IsTrue result ↔ HasSeats version seats.now
        (named_by programme.now) kind (list_of_step programme.now kind).seats }
{
    let own = u32::from(seats.of(kind).seats);
    let told = list_of(programme, kind).seats;
    match kind {
        StepKind::Dereserved => seats_told(version, programme) == seats_shared(version, seats),
        _ => told == own,
    }
}
