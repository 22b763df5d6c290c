// What can be wrong with a season bundle.
ghost use Rattle.std.specs.Prelude.{◌≡◌};
ghost use Rattle.season_file.specs.declared.fault.SeasonFault.TheVariants.{OutOfMemory as NoMemory};

use choice_lists::ChoiceFault;
use office_base::OutOfMemory;
use rank_lists::RankFault;
use seat_matrix::MatrixFault;

/// Says why a season was not read. Nothing is left behind. The fault of a section is never its `OutOfMemory`.
#[derive(Clone, Copy, Debug, PartialEq, Eq, thiserror::Error)]
pub enum SeasonFault {
    /// The source failed: its count of faults rose.
    #[error("the source failed")]
    ReadFault,
    /// There are more than 134,217,728 bytes.
    #[error("too long")]
    TooLong,
    /// The first line is neither `office bundle 1` nor `office bundle 2`.
    #[error("bad first line")]
    BadFirstLine,
    /// The line of the first wrong section line, or one more than the number of lines where a section is missing.
    #[error("line {line}: section")]
    Section { line: u32 },
    /// The first wrong row of the season's section, counted from 1, or one more than their number where a key is missing. It is
    /// also the clerk's row where the clerk's token is a candidate's.
    #[error("season row {row}")]
    BadSeason { row: u32 },
    /// The first fault of the register.
    #[error("register: {0}")]
    Register(RankFault),
    /// The first fault of the matrix.
    #[error("matrix: {0}")]
    Matrix(MatrixFault),
    /// The first fault of the choices.
    #[error("choices: {0}")]
    Choices(ChoiceFault),
    /// The bytes are no UTF-8.
    #[error("not UTF-8")]
    NotUtf8,
    /// The first row of the requests that is none, counted from 1.
    #[error("requests row {row}: bad request")]
    BadRequest { row: u32 },
    /// There was no memory for the season.
    #[error("out of memory")]
    OutOfMemory,
}

impl From<OutOfMemory> for SeasonFault {
    ghost from_gives = { λ _ fault. fault ≡ NoMemory };

    fn from(_: OutOfMemory) -> Self {
        SeasonFault::OutOfMemory
    }
}
