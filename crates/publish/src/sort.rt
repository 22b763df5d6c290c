// Which texts of rows there are.

/// Says what a text of rows shows: a round, or the final admissions.
#[derive(Clone, Copy)]
pub(crate) enum Sort {
    Round,
    Final,
}
