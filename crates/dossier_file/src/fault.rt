// What can be wrong with a dossier.
ghost use Rattle.std.specs.Prelude.{◌≡◌};
ghost use Rattle.dossier_file.specs.declared.fault.DossierFault.TheVariants.{OutOfMemory as NoMemory};

use office_base::OutOfMemory;
use season_file::SeasonFault;

/// Says why a dossier was not read. Nothing is left behind. The fault of a season is never `ReadFault` or
/// `OutOfMemory`.
#[derive(Clone, Copy, Debug, PartialEq, Eq, thiserror::Error)]
pub enum DossierFault {
    /// The source failed: its count of faults rose.
    #[error("the source failed")]
    ReadFault,
    /// There are more than 134,217,728 bytes.
    #[error("too long")]
    TooLong,
    /// The line `[requests]` is missing, or the line `[published]` after it.
    #[error("a section is missing")]
    NoSection,
    /// The first fault of the bundle; or, of a bundle without faults, that of its requests.
    #[error("{0}")]
    Season(SeasonFault),
    /// The line of the published texts, from 1, up to which they begin no such texts as are due, or one past their end where
    /// they begin some.
    #[error("published line {line}")]
    Published { line: u32 },
    /// There was no memory for the dossier.
    #[error("out of memory")]
    OutOfMemory,
}

impl From<OutOfMemory> for DossierFault {
    ghost from_gives = { λ _ fault. fault ≡ NoMemory };

    fn from(_: OutOfMemory) -> Self {
        DossierFault::OutOfMemory
    }
}
