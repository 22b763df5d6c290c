// How far a list was read.
use office_base::StepKind;

/// Holds what the line of a step said of it.
#[derive(Clone, Copy)]
pub(crate) struct OpenStep {
    pub(crate) kind: StepKind,
    pub(crate) seats: u32,
    pub(crate) candidates: u32,
}

/// Says which line of a list comes next, with what the lines before it said of the step that is read.
#[derive(Clone, Copy)]
pub(crate) enum ListStage {
    /// The first line.
    Head,
    /// The line of a step, or the last line.
    Steps,
    /// The line of the slots of a step with so many rows.
    Honoured {
        step: OpenStep,
        rows: u32,
    },
    /// A row of a step: so many are to come, and so many of them have a slot.
    Rows {
        step: OpenStep,
        rows: u32,
        slots: u32,
    },
    /// None.
    Done,
}
