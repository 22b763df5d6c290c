// What holds of runs of a script and of the commands on a season.
ghost use Rattle.std.specs.Prelude.{ℕ, Bool, List};
ghost use Rattle.office_moves.specs.Facts.{SeasonFacts};
ghost use Rattle.season_commands.specs.Laws.{EachAnswerIsCounted, GoesOn, OneRun, OneTally, PrefixIsARun};
ghost use Rattle.command_answers.specs.Answers.{HaveOneAnswer};
ghost use Rattle.season_commands.specs.Check.{bundle_answers, check_answers};

/// Shows that a run continues with one request at its end.
pub fn goes_on()
    ensures { (facts : SeasonFacts) → GoesOn facts }
{}

/// Shows that a prefix of a run is a run.
pub fn prefix_is_a_run()
    ensures { (facts : SeasonFacts) → PrefixIsARun facts }
{}

/// Requests that are answered after a history have one output, and leave one state.
pub fn one_run()
    ensures { (facts : SeasonFacts) → OneRun facts }
{
    history_laws::laws::history_grows();
    history_laws::laws::orderly();
    history_laws::laws::one_next_round();
    history_laws::laws::cutoffs_are_one();
    office_moves::laws::one_reply();
}

/// Requests that are answered after a history have the same replies, so one tally, and leave one state.
pub fn one_tally()
    ensures { (facts : SeasonFacts) → OneTally facts }
{
    history_laws::laws::history_grows();
    history_laws::laws::orderly();
    history_laws::laws::one_next_round();
    history_laws::laws::cutoffs_are_one();
    office_moves::laws::one_reply();
}

/// Shows that each answer among the requests is noted or refused, and that no other request is counted.
pub fn each_answer_is_counted()
    ensures { (facts : SeasonFacts) → EachAnswerIsCounted facts }
{}

/// Shows that bytes are a season bundle without faults or have a fault, and never both.
/// At most one line reports that fault, and at most one text answers the bytes under `check`.
pub fn one_answer()
    ensures { (bytes : List ℕ) → HaveOneAnswer check_answers bytes }
{
    season_file::laws::one_reading();
}

/// Shows the same of bundles with requests and of those without, of which the line of a fault is all that is answered.
pub fn one_bundle_answer()
    ensures { (requests : Bool) (bytes : List ℕ) → HaveOneAnswer (bundle_answers requests) bytes }
{
    season_file::laws::one_reading();
}
