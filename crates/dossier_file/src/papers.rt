// What was published of a season.
use office_base::Listed;
use publish::{FinalRead, ListRead, RoundRead};

/// Rounds as they were read, in the order of the text.
pub type RoundReads = Listed<RoundRead>;

/// Lists as they were read, in the order of the text: those of a round by the numbers of their programmes, after those of the
/// rounds before.
pub type ListReads = Listed<ListRead>;

/// What was published: the rounds and the lists in the order of the text, and the final admissions.
#[derive(Drop)]
pub struct Papers {
    pub rounds: RoundReads,
    pub lists: ListReads,
    pub last: Option<FinalRead>,
}
