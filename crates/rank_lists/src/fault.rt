// What can be wrong with a register.
ghost use Rattle.std.specs.Prelude.{◌≡◌};
ghost use Rattle.rank_lists.specs.Kinds.{kind_name, kind_number};

use section_rows::TableFault;

/// What is wrong with a row of the register. On one row `TooMany` comes first and the others by rising number.
#[derive(Clone, Copy, Debug, PartialEq, Eq)]
pub enum RankKind {
    /// Row 1 is missing or is not the header.
    BadHeader = 1,
    /// The id is no number from 1 to 999,999,999.
    BadId = 2,
    /// The id is in an earlier row.
    RepeatedId = 3,
    /// The category is none of GEN, EWS or GEN-EWS, OBC or OBC-NCL, SC, ST.
    BadCategory = 4,
    /// The traits are no set of traits.
    BadTrait = 5,
    /// A place is no place, or there are more than eight fields.
    BadPlace = 6,
    /// The number of a place is in the same list of an earlier row.
    RepeatedPlace = 7,
    /// A candidate of the general category has a relaxed place.
    RelaxedGeneral = 8,
    /// The token is none, or the token of an earlier row.
    BadToken = 9,
    /// There are more than 250,000 candidates.
    TooMany = 10,
}

impl RankKind {
    /// The number, from 1 to 10.
    pub fn number(self) -> u8
        ensures { result ≡ kind_number self }
    {
        match self {
            RankKind::BadHeader => 1,
            RankKind::BadId => 2,
            RankKind::RepeatedId => 3,
            RankKind::BadCategory => 4,
            RankKind::BadTrait => 5,
            RankKind::BadPlace => 6,
            RankKind::RepeatedPlace => 7,
            RankKind::RelaxedGeneral => 8,
            RankKind::BadToken => 9,
            RankKind::TooMany => 10,
        }
    }

    /// The name, as the line of a fault spells it.
    pub fn name(self) -> &'static str
        ensures { result.now ≡ kind_name self }
    {
        match self {
            RankKind::BadHeader => "BadHeader",
            RankKind::BadId => "BadId",
            RankKind::RepeatedId => "RepeatedId",
            RankKind::BadCategory => "BadCategory",
            RankKind::BadTrait => "BadTrait",
            RankKind::BadPlace => "BadPlace",
            RankKind::RepeatedPlace => "RepeatedPlace",
            RankKind::RelaxedGeneral => "RelaxedGeneral",
            RankKind::BadToken => "BadToken",
            RankKind::TooMany => "TooMany",
        }
    }
}

/// Says why a register was not read: its first fault by rows, or memory ran out. Nothing is left behind.
pub type RankFault = TableFault<RankKind>;
