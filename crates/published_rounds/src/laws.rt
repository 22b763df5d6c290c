// The laws of the rounds that a history publishes, of fair seats, and of other rules, registers and papers. Each is the
// contract of a function that does nothing.
ghost use Rattle.published_rounds.specs.Guaranteed.{GuaranteedSeatsAreHad, JustWithGuarantees, KeptExactly, StepsChooseFromAll};
ghost use Rattle.published_rounds.specs.OneMore.{OneMoreKeepsItsHolders};
ghost use Rattle.published_rounds.specs.Judgments.{TheOrderOfTheJudgments};
ghost use Rattle.published_rounds.specs.Simple.{TheSimpleRule};
ghost use Rattle.office_moves.specs.Facts.{SeasonFacts};
ghost use Rattle.published_rounds.specs.Laws.{MoreSeatsHurtNobody, NoOtherListGivesMore, NobodyIsEnvied, SameAreSeated, SeatsAreWithin};
ghost use Rattle.published_rounds.specs.WholeListLaws.{RoundsLeaveNoTrace};
ghost use Rattle.published_rounds.specs.CutoffLaws.{LaterCutoffsAreWider, RefusalsAreOutside, SeatsAreTheFirst, WithinCutoffsIsSeated};
ghost use Rattle.published_rounds.specs.FairLaws.{ClosingPlacesDecide, FewNewHolders, FewNewlySeated, NoSeatIsWasted, NoVacancyFillsByItself, NobodyIsEnviedWhereFair, NobodyIsKeptWhereFair, RoundsAreFair, SeatsAreWithinWhereFair};
ghost use Rattle.published_rounds.specs.People.{FairSeatsAreJustified, PublishedRoundsAreJustified};
ghost use Rattle.published_rounds.specs.FairThen.{ClosingPlacesDecideThen, FewNewHoldersThen, FewNewlySeatedThen, NoSeatIsWastedThen, NoVacancyFillsByItselfThen};
ghost use Rattle.published_rounds.specs.GroupLaws.{NoGroupGainsInARound, NoGroupWouldGain};
ghost use Rattle.published_rounds.specs.RuleLaws.{DereservationHurtNobody, DereservationHurtsNobody, FairAndSafeIsBest, OnlyTheRoundIsSafe, VersionTwoHurtsNobody, VersionTwoWouldHurtNobody};
ghost use Rattle.published_rounds.specs.BetterOff.{BetterOffIsNoWorse, NeverHurtsInARound};
ghost use Rattle.published_rounds.specs.Numbers.{RisingNumbersKeepOrder};
ghost use Rattle.published_rounds.specs.Order.{OnlyTheOrderCounts};
ghost use Rattle.published_rounds.specs.Registers.{MovingUpNeverHurts, MovingUpNeverHurtsInARound, TheSameOrderGivesTheSameSeats};
ghost use Rattle.published_rounds.specs.OutsideLaws.{OutsideIsOutside};
ghost use Rattle.published_rounds.specs.ReplyLaws.{RepliesDecide};
ghost use Rattle.published_rounds.specs.Papers.{NoVacancyFillsInSoundPapers, SoundPapersAreJustified, SpecialRoundsAreJustified};

/// If nobody holds two protected traits, the choice of a step is the best holders of each trait up to the protected
/// number, and the best of the others.
pub fn the_simple_rule()
    ensures { TheSimpleRule }
{
    merit_choice::laws::by_hand();
}

/// And it is the list in the order of the judgments: the best take the seats, the missing holders of each trait are brought up
/// from below, and as many of the others are struck out, the last first.
pub fn the_order_of_the_judgments()
    ensures { TheOrderOfTheJudgments }
{
    the_simple_rule();
}

/// One protected seat more for a trait, among the same seats of a step, keeps each chosen holder of the trait.
pub fn one_more_keeps_its_holders()
    ensures { OneMoreKeepsItsHolders }
{
    merit_choice::laws::one_choice();
    merit_choice::laws::marks_by_hand();
    merit_choice::laws::by_hand();
}

/// No candidate with a seat is envied by a better one who may stand for the same step and holds the same traits.
pub fn nobody_is_envied()
    ensures { (facts : SeasonFacts) → NobodyIsEnvied facts }
{
    history_laws::laws::orderly();
    published_rounds_are_justified();
}

/// In a published round no step of a programme gives more seats than it has.
pub fn seats_are_within()
    ensures { (facts : SeasonFacts) → SeatsAreWithin facts }
{
    history_laws::laws::orderly();
    seats_are_within_where_fair();
}

/// Every fair allocation of a published round seats the same candidates, and fills as many seats of each programme.
pub fn same_are_seated()
    ensures { (facts : SeasonFacts) → SameAreSeated facts }
{
    history_laws::laws::orderly();
    round_laws::laws::fair_rounds_seat_alike();
}

/// In a published round no other list and no other answer would have given a candidate more.
pub fn no_other_list_gives_more()
    ensures { (facts : SeasonFacts) → NoOtherListGivesMore facts }
{
    history_laws::laws::orderly();
    round_laws::laws::truth_is_best();
}

/// More seats, and candidates who leave, hurt nobody else in a round.
pub fn more_seats_hurt_nobody()
    ensures { (facts : SeasonFacts) → MoreSeatsHurtNobody facts }
{
    history_laws::laws::orderly();
    round_laws::laws::more_seats_hurt_nobody();
}

/// Where everybody who stays floats, each round is the best allocation on the whole lists of those who stay.
pub fn rounds_leave_no_trace()
    ensures { (facts : SeasonFacts) → RoundsLeaveNoTrace facts }
{
    history_laws::laws::orderly();
    round_laws::laws::choose_well();
    round_laws::laws::more_seats_hurt_nobody();
}

/// Each seat is of the first programme sought whose cutoffs the candidate is within.
pub fn seats_are_the_first()
    ensures { (facts : SeasonFacts) → SeatsAreTheFirst facts }
{
    history_laws::laws::orderly();
    round_laws::laws::choose_well();
    programme_cutoffs::laws::cutoffs_decide_steps();
    programme_cutoffs::laws::cutoffs_decide_admissions();
    programme_cutoffs::laws::lines_tell_cutoffs();
    open_then_category::laws::one_programme_choice();
}

/// A candidate is within no cutoff of a programme that they sought more than their seat.
pub fn refusals_are_outside()
    ensures { (facts : SeasonFacts) → RefusalsAreOutside facts }
{
    history_laws::laws::orderly();
    round_laws::laws::choose_well();
    programme_cutoffs::laws::cutoffs_decide_admissions();
    programme_cutoffs::laws::lines_tell_cutoffs();
}

/// Who is within a cutoff of a programme that they sought has a seat there, or at one that they sought more.
pub fn within_cutoffs_is_seated()
    ensures { (facts : SeasonFacts) → WithinCutoffsIsSeated facts }
{
    refusals_are_outside();
}

/// From round to round the cutoffs of a programme only widen.
pub fn later_cutoffs_are_wider()
    ensures { (facts : SeasonFacts) → LaterCutoffsAreWider facts }
{
    history_laws::laws::orderly();
    round_laws::laws::choose_well();
    round_laws::laws::grow();
    programme_cutoffs::laws::who_meets_still_meets();
    programme_cutoffs::laws::lines_tell_cutoffs();
    open_then_category::laws::one_programme_choice();
}

/// Where seats are fair, nobody who has one is envied by somebody better who may stand for it and holds the same traits.
pub fn nobody_is_envied_where_fair()
    ensures { NobodyIsEnviedWhereFair }
{
    round_laws::laws::choose_well();
    open_then_category::laws::programme_choice_exists();
    open_then_category::laws::one_programme_choice();
    programme_laws::laws::nobody_is_passed_over();
}

/// In each published round, whoever is guaranteed a seat of a programme and seeks it has it, or one sought more.
pub fn guaranteed_seats_are_had()
    ensures { (facts : SeasonFacts) → GuaranteedSeatsAreHad facts }
{
    history_laws::laws::orderly();
    round_laws::laws::steps_choose_well();
}

/// Each step seats whom the choice admits under it, from all who apply.
pub fn steps_choose_from_all()
    ensures { (facts : SeasonFacts) → StepsChooseFromAll facts }
{
    history_laws::laws::orderly();
}

/// A person is kept beyond the seats exactly if guaranteed there, applying and not chosen.
pub fn kept_exactly()
    ensures { (facts : SeasonFacts) → KeptExactly facts }
{
    history_laws::laws::orderly();
}

/// By the rule with guarantees nobody has a justified claim, and no fair seats give anyone better.
pub fn just_with_guarantees()
    ensures { (facts : SeasonFacts) → JustWithGuarantees facts }
{
    history_laws::laws::orderly();
    round_laws::laws::choose_well();
}

/// Where seats are fair and nobody is guaranteed one, each is under a step.
pub fn nobody_is_kept_where_fair()
    ensures { NobodyIsKeptWhereFair }
{
    round_laws::laws::choose_well();
    open_then_category::laws::programme_choice_exists();
    open_then_category::laws::one_programme_choice();
}

/// Where seats are fair, no step of a programme gives more seats than it has.
pub fn seats_are_within_where_fair()
    ensures { SeatsAreWithinWhereFair }
{
    round_laws::laws::choose_well();
    open_then_category::laws::programme_choice_exists();
    open_then_category::laws::one_programme_choice();
}

/// Where seats are fair, no seat is wasted: while a step has one left, anyone who seeks the programme and may stand for the
/// step has a seat of it, or one sought more.
pub fn no_seat_is_wasted()
    ensures { NoSeatIsWasted }
{
    round_laws::laws::choose_well();
    open_then_category::laws::programme_choice_exists();
    open_then_category::laws::one_programme_choice();
    programme_laws::laws::empty_seats_refuse_nobody();
}

/// Where seats are fair, each seeker has a seat of the first programme that is open to them, and none where none is.
pub fn closing_places_decide()
    ensures { ClosingPlacesDecide }
{
    round_laws::laws::choose_well();
    open_then_category::laws::programme_choice_exists();
    open_then_category::laws::one_programme_choice();
    programme_laws::laws::nobody_is_passed_over();
    programme_laws::laws::admitted_may_stand();
}

/// From fair seats to the next, where everybody wants only programmes to which they applied, a programme with the same seats
/// has no more holders than before.
pub fn no_vacancy_fills_by_itself()
    ensures { NoVacancyFillsByItself }
{
    round_laws::laws::choose_well();
    round_laws::laws::admit_no_fewer();
}

/// And where its seats are raised, at most as many holders more as seats.
pub fn few_new_holders()
    ensures { FewNewHolders }
{
    round_laws::laws::choose_well();
    open_then_category::laws::programme_choice_exists();
    open_then_category::laws::one_programme_choice();
    open_then_category::laws::no_fewer_admitted();
    merit_choice::laws::in_merit_ranks();
    merit_choice::laws::more_seats();
    merit_choice::laws::refused_stays_refused();
    merit_choice::laws::choice_exists();
    merit_choice::laws::choice_size();
}

/// Every round over a matrix has fair seats, the special round too.
pub fn rounds_are_fair()
    ensures { RoundsAreFair }
{}

/// No seat of a published round is wasted.
pub fn no_seat_is_wasted_then()
    ensures { (facts : SeasonFacts) → NoSeatIsWastedThen facts }
{
    history_laws::laws::orderly();
    no_seat_is_wasted();
}

/// In a published round each candidate has a seat of the first programme that is open to them, and none where none is.
pub fn closing_places_decide_then()
    ensures { (facts : SeasonFacts) → ClosingPlacesDecideThen facts }
{
    history_laws::laws::orderly();
    published_rounds_are_justified();
}

/// A programme whose seats are not raised has no more holders in the next published round.
pub fn no_vacancy_fills_by_itself_then()
    ensures { (facts : SeasonFacts) → NoVacancyFillsByItselfThen facts }
{
    history_laws::laws::orderly();
    round_laws::laws::choose_well();
    round_laws::laws::grow();
    no_vacancy_fills_by_itself();
}

/// And with its raises at most as many holders more as seats.
pub fn few_new_holders_then()
    ensures { (facts : SeasonFacts) → FewNewHoldersThen facts }
{
    history_laws::laws::orderly();
    round_laws::laws::choose_well();
    round_laws::laws::grow();
    few_new_holders();
}

/// From one fair round to the next, the newly seated of a programme are never more than those who lost a seat of it and
/// the seats raised.
pub fn few_newly_seated()
    ensures { FewNewlySeated }
{
    few_new_holders();
}

/// The same holds of two published rounds, with the raises between their cuts.
pub fn few_newly_seated_then()
    ensures { (facts : SeasonFacts) → FewNewlySeatedThen facts }
{
    history_laws::laws::orderly();
    round_laws::laws::choose_well();
    round_laws::laws::grow();
    few_newly_seated();
}

/// Fair seats can be justified to each person: nobody is envied or kept, no seat is wasted, steps keep within their seats, and
/// closing places decide.
pub fn fair_seats_are_justified()
    ensures { FairSeatsAreJustified }
{
    nobody_is_envied_where_fair();
    nobody_is_kept_where_fair();
    no_seat_is_wasted();
    seats_are_within_where_fair();
    closing_places_decide();
}

/// The seats of each published round can be justified to each person.
pub fn published_rounds_are_justified()
    ensures { (facts : SeasonFacts) → PublishedRoundsAreJustified facts }
{
    history_laws::laws::orderly();
    fair_seats_are_justified();
}

/// A rule of rounds is fair, and nobody gains under it by another list, if and only if it always gives the best ones.
pub fn fair_and_safe_is_best()
    ensures { FairAndSafeIsBest }
{
    round_laws::laws::choose_well();
    round_laws::laws::admit_no_fewer();
}

/// So every rule that is fair and under which nobody gains by another list gives the seats of each published round.
pub fn only_the_round_is_safe()
    ensures { (facts : SeasonFacts) → OnlyTheRoundIsSafe facts }
{
    history_laws::laws::orderly();
    round_laws::laws::choose_well();
    fair_and_safe_is_best();
}

/// With all else the same, the best fair seats in version 2 give nobody a worse one than any fair seats in another version.
pub fn version_two_hurts_nobody()
    ensures { VersionTwoHurtsNobody }
{
    round_laws::laws::choose_well();
}

/// So nobody would have had a worse seat in a published round, had it been one in version 2.
pub fn version_two_would_hurt_nobody()
    ensures { (facts : SeasonFacts) → VersionTwoWouldHurtNobody facts }
{
    history_laws::laws::orderly();
    version_two_hurts_nobody();
}

/// With all else the same, the best fair seats give nobody a worse one than any that are fair without the de-reserved step.
pub fn dereservation_hurts_nobody()
    ensures { DereservationHurtsNobody }
{
    round_laws::laws::choose_well();
}

/// So nobody would have had a better seat in a published round without that step.
pub fn dereservation_hurt_nobody()
    ensures { (facts : SeasonFacts) → DereservationHurtNobody facts }
{
    history_laws::laws::orderly();
    dereservation_hurts_nobody();
}

/// In no round do all of a group get seats that they want more by lists that they submit together in place of their own.
pub fn no_group_gains_in_a_round()
    ensures { NoGroupGainsInARound }
{
    round_laws::laws::choose_well();
    round_laws::laws::admit_no_fewer();
}

/// In no published round would all of a group have got seats that they seek more by other lists or other answers.
pub fn no_group_would_gain()
    ensures { (facts : SeasonFacts) → NoGroupWouldGain facts }
{
    history_laws::laws::orderly();
    no_group_gains_in_a_round();
}

/// In a round of any matrix, a candidate who is better off has no worse seat.
pub fn better_off_is_no_worse()
    ensures { BetterOffIsNoWorse }
{
    round_laws::laws::choose_well();
    round_laws::laws::admit_no_fewer();
    programme_laws::laws::being_better_off_never_hurts();
    open_then_category::laws::programme_choice_exists();
}

/// The same holds of the rounds that two histories publish.
pub fn never_hurts_in_a_round()
    ensures { (facts : SeasonFacts) (other : SeasonFacts) → NeverHurtsInARound facts other }
{
    history_laws::laws::orderly();
    better_off_is_no_worse();
}

/// If all places get other numbers in the same order, the best fair seats stay the same, under the same steps.
pub fn only_the_order_counts()
    ensures { OnlyTheOrderCounts }
{
    open_then_category::laws::programme_choice_exists();
    open_then_category::laws::one_programme_choice();
    round_laws::laws::choose_well();
}

/// Other numbers that rise with the old ones in each list, by whatever gaps, keep the order.
pub fn rising_numbers_keep_order()
    ensures { RisingNumbersKeepOrder }
{}

/// Two registers of the same people in the same order have the same best fair seats, whatever their numbers and ids are.
pub fn the_same_order_gives_the_same_seats()
    ensures { TheSameOrderGivesTheSameSeats }
{
    only_the_order_counts();
}

/// A candidate who moves up has no worse seat, even if those who are passed get the next numbers.
pub fn moving_up_never_hurts()
    ensures { MovingUpNeverHurts }
{
    only_the_order_counts();
    better_off_is_no_worse();
    open_then_category::laws::programme_choice_exists();
    open_then_category::laws::one_programme_choice();
    round_laws::laws::choose_well();
}

/// The same holds of the rounds that two histories publish.
pub fn moving_up_never_hurts_in_a_round()
    ensures { (facts : SeasonFacts) (other : SeasonFacts) → MovingUpNeverHurtsInARound facts other }
{
    history_laws::laws::orderly();
    moving_up_never_hurts();
}

/// The seats of a special round can be justified to each person, by the seats that the final admissions left and by the
/// lists that were handed in.
pub fn special_rounds_are_justified()
    ensures { SpecialRoundsAreJustified }
{
    rounds_are_fair();
    fair_seats_are_justified();
}

/// If the papers of a season break no clause, the seats of each of their rounds can be justified to each person.
pub fn sound_papers_are_justified()
    ensures { SoundPapersAreJustified }
{
    seat_matrix::laws::one_step_changes();
    audit_rules::laws::sound_is_fair();
    fair_seats_are_justified();
}

/// If the papers of a season break no clause, a programme gains at most as many holders from one round to the next as seats were
/// raised, and none without a raise.
pub fn no_vacancy_fills_in_sound_papers()
    ensures { NoVacancyFillsInSoundPapers }
{
    seat_matrix::laws::one_step_changes();
    audit_rules::laws::sound_is_fair();
    no_vacancy_fills_by_itself();
    few_new_holders();
    few_newly_seated();
}

/// What a reply to the question for cutoffs decides.
pub fn replies_decide()
    ensures { (facts : SeasonFacts) → RepliesDecide facts }
{
    history_laws::laws::orderly();
    list_cutoffs::laws::cutoffs_exist();
    list_cutoffs::laws::one_list();
    history_laws::laws::lists_hold_choices();
    within_cutoffs_is_seated();
}

/// A candidate who sought nothing in a round and is within no line of a programme gets a seat of it by no list.
pub fn outside_is_outside()
    ensures { (facts : SeasonFacts) → OutsideIsOutside facts }
{
    history_laws::laws::orderly();
    round_laws::laws::choose_well();
    round_laws::laws::admit_no_fewer();
    programme_cutoffs::laws::cutoffs_decide_admissions();
    programme_cutoffs::laws::lines_tell_cutoffs();
}
