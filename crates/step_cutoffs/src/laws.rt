// The laws of cutoffs, over their definitions alone. Each is the contract of a function that does nothing.
ghost use Rattle.step_cutoffs.specs.Laws.{AdmittedAreWithin, AdmittedStay, CutoffExists, CutoffIsOfTraits, CutoffsDecide, CutoffsDecideOffers, EasedIsWider, MoreTraitsWiden, OneCutoff, RefusedAreOutside};
ghost use Rattle.step_cutoffs.specs.StepLaws.{AreLawful};

/// The laws of the choice of a step on which these rest.
pub(crate) fn step_laws()
    ensures { AreLawful }
{
    merit_choice::laws::one_choice();
    merit_choice::laws::choice_exists();
    merit_choice::laws::honours_as_all();
    merit_choice::laws::no_justified_envy();
    merit_choice::laws::leaving_out_refused();
}

/// A person who joins is admitted if and only if their place is within the cutoff of their traits.
pub fn cutoffs_decide()
    ensures { CutoffsDecide }
{
    step_laws();
}

/// Each person admitted is within the cutoff of their traits.
pub fn admitted_are_within()
    ensures { AdmittedAreWithin }
{}

/// Who competed and is refused is not within the cutoff of their traits.
pub fn refused_are_outside()
    ensures { RefusedAreOutside }
{
    step_laws();
}

/// Where people come one at a time, the cutoff decides too.
pub fn cutoffs_decide_offers()
    ensures { CutoffsDecideOffers }
{
    step_laws();
}

/// The cutoff for a newcomer is that of their traits alone.
pub fn cutoff_is_of_traits()
    ensures { CutoffIsOfTraits }
{}

/// Each set of traits has a cutoff.
pub fn cutoff_exists()
    ensures { CutoffExists }
{}

/// No set of traits has two cutoffs.
pub fn one_cutoff()
    ensures { OneCutoff }
{}

/// Each place within the cutoff of some traits is within that of more.
pub fn more_traits_widen()
    ensures { MoreTraitsWiden }
{}

/// With fewer people and more seats whoever was admitted is, if they still compete.
pub fn admitted_stay()
    ensures { AdmittedStay }
{
    merit_choice::laws::choice_exists();
    merit_choice::laws::refused_stays_refused();
    merit_choice::laws::more_seats();
}

/// With fewer people and more seats cutoffs only widen.
pub fn eased_is_wider()
    ensures { EasedIsWider }
{
    merit_choice::laws::choice_exists();
    admitted_stay();
    cutoffs_decide();
    cutoff_is_of_traits();
}
