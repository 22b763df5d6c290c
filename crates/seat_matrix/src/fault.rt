// What can be wrong with a matrix.
ghost use Rattle.std.specs.Prelude.{◌≡◌};
ghost use Rattle.seat_matrix.specs.Kinds.{kind_name, kind_number};

use section_rows::TableFault;

/// What is wrong with a row of the matrix. On one row they come by rising number.
#[derive(Clone, Copy, Debug, PartialEq, Eq)]
pub enum MatrixKind {
    /// Row 1 is missing or is not the header.
    BadHeader = 1,
    /// The programme or the institute is no code, or the step is no step.
    BadCode = 2,
    /// The programme and the step are in an earlier row.
    RepeatedRow = 3,
    /// The seats or a protection are no number from 0 to 4,000, or there are more than eleven fields.
    BadNumber = 4,
    /// The protections sum to more than the seats.
    ProtectionsExceedSeats = 5,
    /// The list is no number from 1 to 4.
    UnknownList = 6,
    /// An earlier row of the programme has another institute.
    TwoInstitutes = 7,
    /// An earlier row of the programme has another list.
    TwoLists = 8,
    /// There are more than 2,000 programmes, or more than 1,000,000 seats in all rows.
    TooMany = 9,
}

impl MatrixKind {
    /// The number, from 1 to 9.
    pub fn number(self) -> u8
        ensures { result ≡ kind_number self }
    {
        match self {
            MatrixKind::BadHeader => 1,
            MatrixKind::BadCode => 2,
            MatrixKind::RepeatedRow => 3,
            MatrixKind::BadNumber => 4,
            MatrixKind::ProtectionsExceedSeats => 5,
            MatrixKind::UnknownList => 6,
            MatrixKind::TwoInstitutes => 7,
            MatrixKind::TwoLists => 8,
            MatrixKind::TooMany => 9,
        }
    }

    /// The name, as the line of a fault spells it.
    pub fn name(self) -> &'static str
        ensures { result.now ≡ kind_name self }
    {
        match self {
            MatrixKind::BadHeader => "BadHeader",
            MatrixKind::BadCode => "BadCode",
            MatrixKind::RepeatedRow => "RepeatedRow",
            MatrixKind::BadNumber => "BadNumber",
            MatrixKind::ProtectionsExceedSeats => "ProtectionsExceedSeats",
            MatrixKind::UnknownList => "UnknownList",
            MatrixKind::TwoInstitutes => "TwoInstitutes",
            MatrixKind::TwoLists => "TwoLists",
            MatrixKind::TooMany => "TooMany",
        }
    }
}

/// Says why a matrix was not read: its first fault by rows, or memory ran out. Nothing is left behind.
pub type MatrixFault = TableFault<MatrixKind>;
