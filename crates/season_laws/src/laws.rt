// The laws between the layers of a season. Each is the contract of a function that does nothing.
ghost use Rattle.office_moves.specs.Facts.{SeasonFacts};
ghost use Rattle.season_laws.specs.Laws.{AnswersCanBeExchanged, OrderWithinWindowsIsFree, SeasonsCanBeFinished};
ghost use Rattle.season_laws.specs.Looks.{AnswersLookAtOwnRows, CutoffsLookAtTheRound, EntriesLookAtTheSeason, ListsLookAtTheRound, PublishedRepliesStay, RaisesLookAtRaises, RoundsLookAtNumbers, StateLooksAtNumbers};
ghost use Rattle.season_laws.specs.NextRounds.{EveryRequestIsAnswered, NextRoundExists};
ghost use Rattle.season_laws.specs.OneText.{AnswersAreOneText, CutoffsAreOneText, EntriesAreOneText};
ghost use Rattle.season_laws.specs.Otherwise.{FloatIsNoWorse, RaisesHurtNobody};
ghost use Rattle.season_laws.specs.ReadBack.{PublishedIsRead, PublishedIsReadAlone};
ghost use Rattle.season_laws.specs.Reasons.{OfficeReasonsAreJust, ToldReasonsAreJust};
ghost use Rattle.season_laws.specs.Kept.{KeptHasNoFault, KeptIsReplayed};
ghost use Rattle.season_laws.specs.ToTheEnd.{HoldersAreAdmitted, NobodyFallsLater};
ghost use Rattle.season_laws.specs.Lasting.{CutsShowTheirRounds, FinalTextsStay, ReceiptsStay, RoundTextsStay};

/// The reply to a raise looks at the season, at how many cuts were made and at the accepted raises alone.
pub fn raises_look_at_raises()
    ensures { (facts : SeasonFacts) → RaisesLookAtRaises facts }
{}

/// The reply to who asks for a list looks at the season, at how many rounds are published and at that round alone.
pub fn lists_look_at_the_round()
    ensures { (facts : SeasonFacts) → ListsLookAtTheRound facts }
{}

/// The reply to who asks for cutoffs looks at the season, at how many rounds are published and at that round alone.
pub fn cutoffs_look_at_the_round()
    ensures { (facts : SeasonFacts) → CutoffsLookAtTheRound facts }
{
    history_laws::laws::lists_hold_choices();
    list_cutoffs::laws::one_list();
}

/// Once a round is published, who asks for a list or for cutoffs of it gets the same reply at any later time.
pub fn published_replies_stay()
    ensures { (facts : SeasonFacts) → PublishedRepliesStay facts }
{
    history_laws::laws::cutoffs_are_one();
}

/// The reply to who asks for an entry of the register, or for a choice list, looks at the season alone.
pub fn entries_look_at_the_season()
    ensures { (facts : SeasonFacts) → EntriesLookAtTheSeason facts }
{}

/// The reply to who asks for the answers of a candidate looks at the season and at that candidate's answers alone.
pub fn answers_look_at_own_rows()
    ensures { (facts : SeasonFacts) → AnswersLookAtOwnRows facts }
{}

/// The reply to who asks how far the office is looks at how many cuts were made and how many rounds are published alone.
pub fn state_looks_at_numbers()
    ensures { (facts : SeasonFacts) → StateLooksAtNumbers facts }
{}

/// The reply to who asks for what was published under a number looks at these numbers alone.
pub fn rounds_look_at_numbers()
    ensures { (facts : SeasonFacts) → RoundsLookAtNumbers facts }
{}

/// A reason that the office gives is about an applicant of that programme in that round. It goes by the lists of the round and
/// the matrix of that round. Each step that the reason names counts against the person.
/// A person whose reason is an admission is on the list of that step.
pub fn office_reasons_are_just()
    ensures { (facts : SeasonFacts) → OfficeReasonsAreJust facts }
{
    round_laws::laws::choose_well();
    open_then_category::laws::one_programme_choice();
    explain::laws::reasons_are_just();
}

/// So is each reason that a reply of the office tells, by the last published round.
pub fn told_reasons_are_just()
    ensures { (facts : SeasonFacts) → ToldReasonsAreJust facts }
{
    office_reasons_are_just();
}

/// A state in which all is in order has a next round, and as `history_laws` says one alone.
pub fn next_round_exists()
    ensures { (facts : SeasonFacts) → NextRoundExists facts }
{
    round_laws::laws::choose_well();
    open_then_category::laws::programme_choice_exists();
    open_then_category::laws::admitted_once();
}

/// And every request in such a state has a reply and a next state, so the office never comes to a stop.
pub fn every_request_is_answered()
    ensures { (facts : SeasonFacts) → EveryRequestIsAnswered facts }
{
    next_round_exists();
    history_laws::laws::lists_hold_choices();
    list_cutoffs::laws::cutoffs_exist();
}

/// A season can always be finished: every history goes on to final rows by the clerk's cuts alone, window by window.
pub fn seasons_can_be_finished()
    ensures { (facts : SeasonFacts) → SeasonsCanBeFinished facts }
{
    history_laws::laws::orderly();
    history_laws::laws::history_grows();
    every_request_is_answered();
}

/// The order within a window does not matter: the rounds and the final rows look at each candidate's rows of each window, and at each window's raises.
pub fn order_within_windows_is_free()
    ensures { (facts : SeasonFacts) → OrderWithinWindowsIsFree facts }
{
    history_laws::laws::orderly();
    history_laws::laws::one_round();
}

/// And two answers of different candidates that follow each other can be exchanged.
pub fn answers_can_be_exchanged()
    ensures { (facts : SeasonFacts) → AnswersCanBeExchanged facts }
{}

/// A candidate who floats gets no worse seat in the next round than with other answers.
pub fn float_is_no_worse()
    ensures { (facts : SeasonFacts) → FloatIsNoWorse facts }
{
    round_laws::laws::wider_is_no_worse();
}

/// Raises hurt nobody in the next round.
pub fn raises_hurt_nobody()
    ensures { (facts : SeasonFacts) → RaisesHurtNobody facts }
{
    round_laws::laws::more_seats_hurt_nobody();
}

/// What is published of a state in which all is in order is read back: each round as its number and its rows, each list, and the final admissions.
pub fn published_is_read()
    ensures { (facts : SeasonFacts) → PublishedIsRead facts }
{
    round_laws::laws::choose_well();
    open_then_category::laws::admitted_once();
    open_then_category::laws::slots_are_traits();
    merit_choice::laws::in_merit_ranks();
    publish::laws::rounds_are_read();
    publish::laws::finals_are_read();
    list_texts::laws::lists_are_told();
    list_texts::laws::lists_are_read();
}

/// And it is read as nothing else, where each programme has a code.
pub fn published_is_read_alone()
    ensures { (facts : SeasonFacts) → PublishedIsReadAlone facts }
{
    published_is_read();
    publish::laws::rounds_are_one();
    publish::laws::finals_are_one();
    list_texts::laws::lists_are_one();
}

/// A text of cutoffs is that of one round, one programme and one list of lines: equal bytes say the same.
pub fn cutoffs_are_one_text()
    ensures { CutoffsAreOneText }
{}

/// The line of an entry of the register is that of one entry.
pub fn entries_are_one_text()
    ensures { EntriesAreOneText }
{}

/// A text of accepted answers is that of one candidate and one list of answers.
pub fn answers_are_one_text()
    ensures { AnswersAreOneText }
{}

/// What an office kept is replayed: where a history leads to a state and records stand for it, these records are replayed to that state.
pub fn kept_is_replayed()
    ensures { (facts : SeasonFacts) → KeptIsReplayed facts }
{}

/// So every fault of replaying such records is want of memory.
pub fn kept_has_no_fault()
    ensures { (facts : SeasonFacts) → KeptHasNoFault facts }
{
    kept_is_replayed();
    replays::laws::one_end();
}

/// What was published as a round is shown under its number, word for word, whatever is accepted later.
pub fn round_texts_stay()
    ensures { (facts : SeasonFacts) → RoundTextsStay facts }
{}

/// And so are the final admissions.
pub fn final_texts_stay()
    ensures { (facts : SeasonFacts) → FinalTextsStay facts }
{
    history_laws::laws::windows_pass();
}

/// If something was accepted and is asked for again, the first text comes again, word for word; for a cut with all rows.
pub fn receipts_stay()
    ensures { (facts : SeasonFacts) → ReceiptsStay facts }
{
    office_moves::laws::repeats_once();
}

/// What a cut writes is the text of the round that every later state has under its number.
pub fn cuts_show_their_rounds()
    ensures { (facts : SeasonFacts) → CutsShowTheirRounds facts }
{}

/// Who freezes, floats or slides at each cut has a seat in every later round, and never a lower one.
pub fn nobody_falls_later()
    ensures { (facts : SeasonFacts) → NobodyFallsLater facts }
{
    history_laws::laws::orderly();
}

/// Who also does so at the final cut is admitted, and to no lower seat than the first.
pub fn holders_are_admitted()
    ensures { (facts : SeasonFacts) → HoldersAreAdmitted facts }
{
    history_laws::laws::orderly();
}
