// The lists of a programme's steps.
ghost use Rattle.std.specs.Prelude.{◌≡◌, IfOk};

use office_base::{OutOfMemory, People, STEP_COUNT, StepKind};
use slot_cert::Cert;
use std::alloc::Global;

/// Holds one step of a programme, as it is shown: its seats, the number of people who competed for them, the persons
/// admitted in merit order, and what shows which protections they fill.
#[derive(Drop)]
pub struct StepList {
    pub kind: StepKind,
    pub seats: u32,
    pub candidates: u32,
    pub admitted: People,
    pub cert: Cert,
}

/// Holds the lists of a programme, in the order of its steps.
#[derive(Drop)]
pub struct Programme {
    pub steps: [StepList; STEP_COUNT],
}

impl StepList {
    /// Returns the same list.
    pub fn copy(&self, alloc: Global) -> Result<StepList, OutOfMemory>
        ensures { IfOk result (λ list. list ≡ self.now) }
    {
        Ok(StepList {
            kind: self.kind,
            seats: self.seats,
            candidates: self.candidates,
            admitted: self.admitted.copy(alloc)?,
            cert: Cert {
                pairs: self.cert.pairs.copy(alloc)?,
            },
        })
    }
}

impl Programme {
    /// Returns the same lists.
    pub fn copy(&self, alloc: Global) -> Result<Programme, OutOfMemory>
        ensures { IfOk result (λ programme. programme ≡ self.now) }
    {
        let steps = self.steps.each_ref().try_map(|list| list.copy(alloc))?;
        Ok(Programme { steps })
    }
}
