// The laws of moves and of histories, over the definitions alone. Each is the contract of a function that does nothing.
ghost use Rattle.office_moves.specs.Facts.{SeasonFacts};
ghost use Rattle.office_moves.specs.Laws.{OneReply, OneState, OwnViewOnly, RepeatsOnce};

/// Shows that the reply to a request about one candidate looks at the season and at that candidate's view alone.
pub fn own_view_only()
    ensures { (facts : SeasonFacts) → OwnViewOnly facts }
{}

/// A request that was newly accepted gives its first receipt whenever it is asked again, and then changes nothing.
pub fn repeats_once()
    ensures { (facts : SeasonFacts) → RepeatsOnce facts }
{}

/// Where a state has one next round at most, a history leads to one state.
pub fn one_state()
    ensures { (facts : SeasonFacts) → OneState facts }
{}

/// And a request after a history has one reply, and leads to one state.
pub fn one_reply()
    ensures { (facts : SeasonFacts) → OneReply facts }
{}
