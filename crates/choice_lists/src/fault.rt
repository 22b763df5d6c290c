// What can be wrong with the choices.
ghost use Rattle.std.specs.Prelude.{◌≡◌};
ghost use Rattle.choice_lists.specs.Kinds.{kind_name, kind_number};

use section_rows::TableFault;

/// What is wrong with a row of the choices. On one row `UnknownCandidate`, `RepeatedCandidate`, `TooLong` and `TooMany` come in
/// this order, and then the other three programme by programme.
#[derive(Clone, Copy, Debug, PartialEq, Eq)]
pub enum ChoiceKind {
    /// Row 1 is missing or is not the header.
    BadHeader = 0,
    /// The first field is no id of the register.
    UnknownCandidate = 1,
    /// The candidate has an earlier row.
    RepeatedCandidate = 2,
    /// A field is not the code of a programme of the matrix.
    UnknownProgramme = 3,
    /// A programme is already in the row.
    RepeatedProgramme = 4,
    /// The candidate has no place in the merit list of the programme.
    NotRankedThere = 5,
    /// The row has more than 1,000 programmes.
    TooLong = 6,
    /// There are more than 5,000,000 programmes in all rows up to this one.
    TooMany = 7,
}

impl ChoiceKind {
    /// The number, from 0 to 7.
    pub fn number(self) -> u8
        ensures { result ≡ kind_number self }
    {
        match self {
            ChoiceKind::BadHeader => 0,
            ChoiceKind::UnknownCandidate => 1,
            ChoiceKind::RepeatedCandidate => 2,
            ChoiceKind::UnknownProgramme => 3,
            ChoiceKind::RepeatedProgramme => 4,
            ChoiceKind::NotRankedThere => 5,
            ChoiceKind::TooLong => 6,
            ChoiceKind::TooMany => 7,
        }
    }

    /// The name, as the line of a fault spells it.
    pub fn name(self) -> &'static str
        ensures { result.now ≡ kind_name self }
    {
        match self {
            ChoiceKind::BadHeader => "BadHeader",
            ChoiceKind::UnknownCandidate => "UnknownCandidate",
            ChoiceKind::RepeatedCandidate => "RepeatedCandidate",
            ChoiceKind::UnknownProgramme => "UnknownProgramme",
            ChoiceKind::RepeatedProgramme => "RepeatedProgramme",
            ChoiceKind::NotRankedThere => "NotRankedThere",
            ChoiceKind::TooLong => "TooLong",
            ChoiceKind::TooMany => "TooMany",
        }
    }
}

/// Says why choices were not read: their first fault by rows, or memory ran out. Nothing is left behind.
pub type ChoiceFault = TableFault<ChoiceKind>;
