// The laws of kept records, over the definitions alone. Each is the contract of a function that does nothing.
ghost use Rattle.kept_rows.specs.declared.rows.Kept.{Kept};
ghost use Rattle.office_moves.specs.Facts.{IsSound, SeasonFacts};
ghost use Rattle.replays.specs.Laws.{HaveOneEnd};

/// Kept records of a season lead to one state, or have one first fault; and never both.
pub fn one_end()
    ensures { (facts : SeasonFacts) (kept : Kept) → IsSound facts → HaveOneEnd facts kept }
{
    history_laws::laws::next_rounds_are_one();
}
