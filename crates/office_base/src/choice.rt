// What a candidate answers to a seat.

/// What a candidate answers to a seat: keep it, keep it unless a better programme comes,
/// the same within the seat's institute, or leave.
#[derive(Clone, Copy, Debug, PartialEq, Eq)]
pub enum Choice {
    Freeze,
    Float,
    Slide,
    Withdraw,
}
