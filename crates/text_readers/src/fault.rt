// Why bytes are no text.
ghost use Rattle.std.specs.Prelude.{◌≡◌};
ghost use Rattle.text_readers.specs.declared.fault.TextFault.TheVariants.{OutOfMemory as NoMemory};

use office_base::OutOfMemory;

/// Why a text was not read. Nothing is left behind.
#[derive(Clone, Copy, Debug, PartialEq, Eq, thiserror::Error)]
pub enum TextFault {
    /// The bytes are no text. The line, from 1, is the first up to which they begin none, or one past their end where they begin
    /// one.
    #[error("line {0}")]
    Line(u32),
    /// There was no memory for the value.
    #[error("out of memory")]
    OutOfMemory,
}

impl From<OutOfMemory> for TextFault {
    ghost from_gives = { λ _ fault. fault ≡ NoMemory };

    fn from(_: OutOfMemory) -> Self {
        TextFault::OutOfMemory
    }
}
