// Why a command that answers with one text has no output.
ghost use Rattle.std.specs.Prelude.{◌≡◌};
ghost use Rattle.command_answers.specs.declared.failure.Failure.TheVariants.{NoMemory};

use office_base::{OutOfMemory, Text};

/// Why a command has no output.
#[derive(Drop)]
pub enum Failure {
    /// The source failed.
    Read,
    /// The input has a fault; this is the line that reports it.
    Bad(Text),
    /// Memory ran out.
    NoMemory,
}

impl From<OutOfMemory> for Failure {
    ghost from_gives = { λ _ failure. failure ≡ NoMemory };

    fn from(_: OutOfMemory) -> Self {
        Failure::NoMemory
    }
}
