// The laws of the choice of a programme, over its definition alone. Each is the contract of a function that does nothing.
ghost use Rattle.open_then_category.specs.Laws.{OneProgrammeChoice, ProgrammeChoiceExists, RefusedFromMore, UnfilledFalls, NoFewerAdmitted, LeavingOutTheRefused, EachRefusedAllRefused, AdmittedOnce, OneStep, SlotsAreTraits, MoreSeatsKeepAll, RefusedBefore, Resumes, ChosenWell, NoFewerFromMore, GrowsWithSeats, NoSeatStaysEmpty, DereservationComesLast, ChoicesMeetAxioms, OpenComesFirst};
ghost use Rattle.open_then_category.specs.State.{OffersKeepChoices, OffersLeaveOne};
ghost use Rattle.open_then_category.specs.StepLaws.{AreLawful};

/// The laws of the choice of a step and of the merit order on which these rest.
pub(crate) fn step_laws()
    ensures { AreLawful }
{
    merit_choice::laws::choice_exists();
    merit_choice::laws::choice_size();
    merit_choice::laws::refused_stays_refused();
    merit_choice::laws::no_fewer();
    merit_choice::laws::leaving_out_refused();
    merit_choice::laws::more_seats();
    merit_choice::laws::in_merit_ranks();
    merit_choice::laws::part_in_merit();
    merit_choice::laws::part_can_be_ranked();
    merit_choice::laws::refused_before();
    merit_choice::laws::one_merit_order();
    merit_choice::laws::ranked_in_merit();
    merit_choice::laws::with_person_ranks();
    merit_choice::laws::seats_for_all();
    merit_choice::laws::honours_as_all();
    merit_choice::laws::no_justified_envy();
}

/// A programme has at most one choice.
pub fn one_programme_choice()
    ensures { OneProgrammeChoice }
{
    step_laws();
}

/// A programme has a choice.
pub fn programme_choice_exists()
    ensures { ProgrammeChoiceExists }
{
    step_laws();
}

/// Who is refused from some people is refused from more.
pub fn refused_from_more()
    ensures { RefusedFromMore }
{
    step_laws();
}

/// The de-reserved step has no more seats where there are more people.
pub fn unfilled_falls()
    ensures { UnfilledFalls }
{
    step_laws();
}

/// From more people no fewer are admitted in all.
pub fn no_fewer_admitted()
    ensures { NoFewerAdmitted }
{
    step_laws();
}

/// Without some people who are refused each step admits the same persons.
pub fn leaving_out_the_refused()
    ensures { LeavingOutTheRefused }
{
    step_laws();
}

/// Where each of some persons alone is refused when added to others, all of them are refused when added together, and
/// the choice stays.
pub fn each_refused_all_refused()
    ensures { EachRefusedAllRefused }
{
    step_laws();
}

/// Each person is admitted once, and is one of the people.
pub fn admitted_once()
    ensures { AdmittedOnce }
{
    step_laws();
}

/// Each person is admitted under one step.
pub fn one_step()
    ensures { OneStep }
{
    step_laws();
}

/// Each slot of the lists of a programme is one of the six traits.
pub fn slots_are_traits()
    ensures { SlotsAreTraits }
{
    step_laws();
}

/// States that where steps have more seats, with the same protections, everyone who was admitted from the same people
/// is still admitted, perhaps under another step.
pub fn more_seats_keep_all()
    ensures { MoreSeatsKeepAll }
{
    step_laws();
}

/// Without some people whom an earlier choice refused, from fewer people, the choice is the same.
pub fn refused_before()
    ensures { RefusedBefore }
{
    step_laws();
}

/// The choice from those admitted from some people, with one person more, is the choice from all these people with that
/// one. So after people came one by one, whatever their order, those held are the choice from all who came.
pub fn resumes()
    ensures { Resumes }
{
    step_laws();
}

/// Programmes with sound seats choose well, as the theory of rounds asks of a rule.
pub fn chosen_well()
    ensures { ChosenWell }
{
    step_laws();
}

/// And they admit no fewer from more people, as it asks of a rule too.
pub fn no_fewer_from_more()
    ensures { NoFewerFromMore }
{
    step_laws();
}

/// And they admit everybody whom they admitted before where steps have more seats, with all protections as before.
pub fn grows_with_seats()
    ensures { GrowsWithSeats }
{
    step_laws();
}

/// No seat of a category stays empty while one of its members is not admitted by the open step or by its own.
pub fn no_seat_stays_empty()
    ensures { NoSeatStaysEmpty }
{
    step_laws();
}

/// De-reservation comes last: where the de-reserved step has a seat, or admits somebody, a category that feeds it left a
/// seat empty and has nobody left for it.
pub fn dereservation_comes_last()
    ensures { DereservationComesLast }
{
    step_laws();
}

/// Each choice of a programme meets the axioms (Sönmez and Yenmez 2022): no seat is wasted, no more protections could be
/// honoured, no envy is justified, and open seats come first.
pub fn choices_meet_axioms()
    ensures { ChoicesMeetAxioms }
{
    step_laws();
}

/// With the same open seats, whatever the seats of categories, the open step admits the same persons.
pub fn open_comes_first()
    ensures { OpenComesFirst }
{
    step_laws();
}

/// After a person came to the steps in their order, each handing on whom it leaves out, they admit the choice from those
/// whom they admitted and the person.
pub fn offers_keep_choices()
    ensures { OffersKeepChoices }
{
    step_laws();
}

/// At most one is left without a seat then: one of those whom the steps admitted, or the person. All others are admitted.
pub fn offers_leave_one()
    ensures { OffersLeaveOne }
{
    step_laws();
}
