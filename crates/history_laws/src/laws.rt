// The laws of the states that a history reaches. Each is the contract of a function that does nothing.
ghost use Rattle.std.specs.Prelude.{◌≡◌, List};
ghost use Rattle.office_moves.specs.Facts.{IsSound, SeasonFacts};
ghost use Rattle.office_moves.specs.Laws.{CutoffsAreOne, NextRoundsAreOne, OneNextRound};
ghost use Rattle.office_moves.specs.Promise.{KeepsItsWord};
ghost use Rattle.office_moves.specs.State.{State, opening};
ghost use Rattle.office_moves.specs.History.{IsHistory, Reaches};
ghost use Rattle.office_moves.specs.declared.moves.Entry.{Entry};
ghost use Rattle.history_laws.specs.Course.{IsCourse};
ghost use Rattle.history_laws.specs.Laws.{AcceptedByItsAct, AnswersAreOne, HistoryGrows, ListsHoldChoices, RoundsAreOne, SeatsOnlyRise, TurnsCount, WindowsPass};
ghost use Rattle.history_laws.specs.Orderly.{IsOrderly};

/// A newly accepted request comes to the same as its act, asked by its candidate or by the clerk.
pub fn accepted_by_its_act()
    ensures { (facts : SeasonFacts) → AcceptedByItsAct facts }
{}

/// Any request after a history leads to the state of a history again.
pub fn history_grows()
    ensures { (facts : SeasonFacts) → HistoryGrows facts }
{}

/// The turns of each candidate in each window count from 1, and are few.
pub fn turns_count()
    ensures { (facts : SeasonFacts) → TurnsCount facts }
{}

/// A history goes from window to window up to the last cut, which alone gives the final rows.
pub fn windows_pass()
    ensures { (facts : SeasonFacts) → WindowsPass facts }
{}

/// Seats only rise along a history, and the raised matrix is the one of the next round.
pub fn seats_only_rise()
    ensures { (facts : SeasonFacts) → SeatsOnlyRise facts }
{
    seat_matrix::laws::one_step_changes();
}

/// A state that a history reaches has the course of a season.
pub fn runs_its_course()
    ensures { (facts : SeasonFacts) (entries : List Entry) (state : State) → IsSound facts
        → Reaches facts opening entries state → IsCourse facts state }
{
    windows_pass();
    seats_only_rise();
}

/// Over a course of a season the office keeps its word: every round is just, and nobody falls.
pub fn keeps_its_word()
    ensures { (facts : SeasonFacts) (state : State) → IsSound facts
        → IsCourse facts state → KeepsItsWord facts state }
{
    round_laws::laws::choose_well();
    round_laws::laws::grow();
    round_laws::laws::steps_choose_well();
}

/// In a state that a history reaches all is in order: the office keeps its word, and its windows, turns, seats and raises fit together.
pub fn orderly()
    ensures { (facts : SeasonFacts) (entries : List Entry) (state : State) → IsSound facts
        → Reaches facts opening entries state → IsOrderly facts state }
{
    runs_its_course();
    turns_count();
    windows_pass();
    seats_only_rise();
    round_laws::laws::choose_well();
    round_laws::laws::grow();
    round_laws::laws::steps_choose_well();
}

/// Two rounds of a season by one matrix, on one seek for each of the people and one set of guarantees, are one.
pub fn one_round()
    ensures { RoundsAreOne }
{
    round_laws::laws::enter();
    round_laws::laws::one_round();
}

/// A state in which all is in order has one next round at most.
pub fn one_next_round()
    ensures { (facts : SeasonFacts) (state : State) → IsSound facts
        → IsOrderly facts state → OneNextRound facts state }
{
    one_round();
}

/// Each state that a history reaches has one next round at most.
pub fn next_rounds_are_one()
    ensures { (facts : SeasonFacts) → IsSound facts → NextRoundsAreOne facts }
{
    orderly();
    one_next_round();
}

/// A history leads to one state.
pub fn one_history()
    ensures { (facts : SeasonFacts) (entries : List Entry) (state other : State) → IsSound facts
        → IsHistory facts entries state → IsHistory facts entries other → state ≡ other }
{
    next_rounds_are_one();
    office_moves::laws::one_state();
}

/// Each list of a published round is of a step whose seats hold a choice, so it has cutoffs.
pub fn lists_hold_choices()
    ensures { ListsHoldChoices }
{
    round_laws::laws::choose_well();
    programme_cutoffs::laws::lists_are_kept();
}

/// In each state that a history reaches, the lists of a programme in a round have one list of cutoffs at most.
pub fn cutoffs_are_one()
    ensures { (facts : SeasonFacts) → IsSound facts → CutoffsAreOne facts }
{
    orderly();
    lists_hold_choices();
    list_cutoffs::laws::one_list();
}

/// And a request after it has one reply, and leads to one state.
pub fn one_answer()
    ensures { AnswersAreOne }
{
    next_rounds_are_one();
    cutoffs_are_one();
    office_moves::laws::one_reply();
}
