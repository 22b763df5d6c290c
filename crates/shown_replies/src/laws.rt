// The law of the texts of replies. It is the contract of a function that does nothing.
ghost use Rattle.office_moves.specs.Facts.{SeasonFacts};
ghost use Rattle.shown_replies.specs.Laws.{RepliesCanBeShown};

/// Shows that the reply that led to a state in which all is in order can be shown.
pub fn replies_can_be_shown()
    ensures { (facts : SeasonFacts) → RepliesCanBeShown facts }
{
    round_laws::laws::choose_well();
    open_then_category::laws::slots_are_traits();
}
