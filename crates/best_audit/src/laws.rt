// What holds of second verdicts, over the definitions alone. Each is the contract of a function that does nothing.
ghost use Rattle.best_audit.specs.Laws.{BestIfAndOnlyIf, OneBestVerdict};

/// States that the second verdict on the papers of a season is one.
pub fn one_best_verdict()
    ensures { OneBestVerdict }
{}

/// States that a second verdict is `Best` if and only if every published round is the best one.
pub fn best_if_and_only_if()
    ensures { BestIfAndOnlyIf }
{}
