// How far a text was read.

/// Says which line of a text comes next: the first, one of those after it, or none.
#[derive(Clone, Copy)]
pub(crate) enum Stage {
    Head,
    Rows,
    Done,
}
