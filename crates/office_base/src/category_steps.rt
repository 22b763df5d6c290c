// The steps of a programme, as a table: which step fills the seats of a category, and which empty seats are given away.
ghost use Rattle.std.specs.Prelude.{◌≡◌};
ghost use Rattle.office_base.specs.CategorySteps.{gives_up};

use crate::{Category, StepKind};

/// When the seats that a category left empty go to the de-reserved step.
#[derive(Clone, Copy, PartialEq, Eq)]
pub enum GivesUp {
    Never,
    /// In this version of the bundle alone.
    InVersion(u8),
    Always,
}

/// The step that fills the seats of a category.
#[derive(Clone, Copy, PartialEq, Eq)]
pub struct CategoryStep {
    pub step: StepKind,
    pub category: Category,
    pub gives_up: GivesUp,
}

/// How many categories have seats of their own.
pub const CATEGORY_COUNT: usize = 4;

/// How many steps have seats of their own: the open one, and that of each such category.
pub const OWN_COUNT: usize = CATEGORY_COUNT + 1;

/// How many steps there are: the last one is the de-reserved step.
pub const STEP_COUNT: usize = OWN_COUNT + 1;

/// The steps that have seats of their own, in the order in which a programme fills them.
pub const OWN_STEPS: [StepKind; OWN_COUNT] = [
    StepKind::Open,
    StepKind::Ews,
    StepKind::Obc,
    StepKind::Sc,
    StepKind::St,
];

/// All steps, in their order.
pub const ALL_STEPS: [StepKind; STEP_COUNT] = [
    StepKind::Open,
    StepKind::Ews,
    StepKind::Obc,
    StepKind::Sc,
    StepKind::St,
    StepKind::Dereserved,
];

/// The categories that have seats of their own, in the order in which a programme fills them. OBC gives its empty seats
/// away in each version of the bundle, and EWS in version 2. The empty seats of SC and ST stay empty.
pub const CATEGORY_STEPS: [CategoryStep; CATEGORY_COUNT] = [
    CategoryStep {
        step: StepKind::Ews,
        category: Category::Ews,
        gives_up: GivesUp::InVersion(2),
    },
    CategoryStep {
        step: StepKind::Obc,
        category: Category::Obc,
        gives_up: GivesUp::Always,
    },
    CategoryStep {
        step: StepKind::Sc,
        category: Category::Sc,
        gives_up: GivesUp::Never,
    },
    CategoryStep {
        step: StepKind::St,
        category: Category::St,
        gives_up: GivesUp::Never,
    },
];

/// Returns whether the empty seats of a category go to the de-reserved step in this version of the bundle.
pub fn gives_up(row: CategoryStep, version: u8) -> bool
    ensures { result ≡ gives_up row version }
{
    match row.gives_up {
        GivesUp::Never => false,
        GivesUp::InVersion(only) => version == only,
        GivesUp::Always => true,
    }
}
