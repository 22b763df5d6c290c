// A seat of an allocation, and the kinds of seats: under a step, or beyond the seats of all steps.
ghost use Rattle.std.specs.Prelude.{◌≡◌};
ghost use Rattle.office_base.specs.SeatKinds.{seat_kind_number, seat_kind_of_number};

use crate::{ProgId, STEP_COUNT, StepKind, step_number};

/// How a programme admits a candidate: under a step, or beyond its seats, because a seat there is guaranteed.
#[derive(Clone, Copy, Debug, PartialEq, Eq)]
pub enum SeatKind {
    Under(StepKind),
    Kept,
}

/// A seat of an allocation: a programme, and how it admits the candidate.
#[derive(Clone, Copy, Debug, PartialEq, Eq)]
pub struct Seat {
    pub prog: ProgId,
    pub step: SeatKind,
}

/// How many kinds of seats there are: one for each step, and the kept seats.
pub const SEAT_KIND_COUNT: usize = STEP_COUNT + 1;

/// All kinds of seats: those of the steps in their order, and the kept seats last.
pub const ALL_SEAT_KINDS: [SeatKind; SEAT_KIND_COUNT] = [
    SeatKind::Under(StepKind::Open),
    SeatKind::Under(StepKind::Ews),
    SeatKind::Under(StepKind::Obc),
    SeatKind::Under(StepKind::Sc),
    SeatKind::Under(StepKind::St),
    SeatKind::Under(StepKind::Dereserved),
    SeatKind::Kept,
];

/// Returns the number of a kind of seat: that of its step, or 6 for a kept seat.
pub fn seat_kind_number(kind: SeatKind) -> u8
    ensures { result ≡ seat_kind_number kind }
{
    match kind {
        SeatKind::Under(step) => step_number(step),
        SeatKind::Kept => 6,
    }
}

/// Returns the kind of seat of a number, if there is one.
pub fn seat_kind_of_number(number: u8) -> Option<SeatKind>
    ensures { result ≡ seat_kind_of_number number }
{
    ALL_SEAT_KINDS.get(usize::from(number)).copied()
}
