// The number of a step among all steps, and the step of a number.
ghost use Rattle.std.specs.Prelude.{◌≡◌};
ghost use Rattle.office_base.specs.CategorySteps.{step_of_number};
ghost use Rattle.office_base.specs.StepNumbers.{step_number};

use crate::{ALL_STEPS, StepKind};

/// Returns the number of a step among all steps, from 0.
pub fn step_number(step: StepKind) -> u8
    ensures { result ≡ step_number step }
{
    match step {
        StepKind::Open => 0,
        StepKind::Ews => 1,
        StepKind::Obc => 2,
        StepKind::Sc => 3,
        StepKind::St => 4,
        StepKind::Dereserved => 5,
    }
}

/// Returns the step of a number, if there is one.
pub fn step_of_number(number: u8) -> Option<StepKind>
    ensures { result ≡ step_of_number number }
{
    ALL_STEPS.get(usize::from(number)).copied()
}
