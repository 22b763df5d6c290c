// What can be wrong with published texts.
ghost use Rattle.std.specs.Prelude.{◌≡◌};
ghost use Rattle.list_audit.specs.Names.{name_of};

use office_base::CandId;

/// A clause that published texts break.
#[derive(Clone, Copy, Debug, PartialEq, Eq)]
pub enum Clause {
    /// A candidate has a seat of a programme that was not sought.
    NotSought,
    /// A candidate who froze, floats or slides has no seat.
    Fell,
    /// The round and a programme's lists differ on a candidate.
    Unlisted,
    /// The seats or the number of candidates of a step are wrong.
    WrongNumbers,
    /// One of those listed is not one of the step's people, or is out of order.
    NotCandidate,
    /// Not as many are listed as there are seats or candidates.
    WrongSize,
    /// The slots do not show what the step's people honour.
    BadCertificate,
    /// Somebody who is not listed could take the place of one who is worse.
    Overtaken,
    /// The final admissions are not those of the last round.
    FinalDiffers,
}

/// A clause that the lists of a programme break, with the candidate whom it names.
pub type ListFault = (Clause, Option<CandId>);

impl Clause {
    /// Its name.
    pub fn name(self) -> &'static str
        ensures { result.now ≡ name_of self }
    {
        match self {
            Clause::NotSought => "NotSought",
            Clause::Fell => "Fell",
            Clause::Unlisted => "Unlisted",
            Clause::WrongNumbers => "WrongNumbers",
            Clause::NotCandidate => "NotCandidate",
            Clause::WrongSize => "WrongSize",
            Clause::BadCertificate => "BadCertificate",
            Clause::Overtaken => "Overtaken",
            Clause::FinalDiffers => "FinalDiffers",
        }
    }
}
