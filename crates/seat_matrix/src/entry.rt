// What a row of the matrix gives.
use crate::seats::Seating;
use office_base::{Code, ListId, StepKind};

/// Holds the institute of a programme, and the merit list that the programme uses.
#[derive(Clone, Copy)]
pub struct Home {
    pub institute: Code,
    pub list: ListId,
}

/// A programme with one of its steps.
#[derive(Clone, Copy)]
pub struct Entry {
    pub programme: Code,
    pub home: Home,
    pub step: StepKind,
    pub seating: Seating,
}
