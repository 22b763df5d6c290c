// The laws of the cutoffs of a programme. Each is the contract of a function that does nothing.
ghost use Rattle.programme_cutoffs.specs.Laws.{CutoffsDecideAdmissions, CutoffsDecideSteps, CutoffsOnlyWiden, LinesTellCutoffs, ListsAreKept, StepsAreKept, WhoMeetsStillMeets};

/// Each step of a programme that has chosen is one that has cutoffs.
pub fn steps_are_kept()
    ensures { StepsAreKept }
{
    open_then_category::laws::choices_meet_axioms();
    axiom_laws::laws::one_meets_the_axioms_of_a_step();
}

/// A person who joins is admitted under the first step whose cutoff they meet, and under no other.
pub fn cutoffs_decide_steps()
    ensures { CutoffsDecideSteps }
{
    step_cutoffs::laws::cutoffs_decide();
    step_cutoffs::laws::cutoff_exists();
    merit_choice::laws::leaving_out_refused();
    open_then_category::laws::one_step();
    open_then_category::laws::choices_meet_axioms();
    axiom_laws::laws::one_meets_the_axioms_of_a_step();
}

/// A person who joins is admitted if and only if they meet the cutoff of some step.
pub fn cutoffs_decide_admissions()
    ensures { CutoffsDecideAdmissions }
{
    step_cutoffs::laws::cutoffs_decide();
    step_cutoffs::laws::cutoff_exists();
    merit_choice::laws::leaving_out_refused();
    open_then_category::laws::one_step();
    open_then_category::laws::choices_meet_axioms();
    axiom_laws::laws::one_meets_the_axioms_of_a_step();
}

/// Each list of a programme that has chosen is of a step that has cutoffs.
pub fn lists_are_kept()
    ensures { ListsAreKept }
{
    steps_are_kept();
}

/// A person meets the cutoff of a step if and only if they are within one of its lines.
pub fn lines_tell_cutoffs()
    ensures { LinesTellCutoffs }
{
    step_cutoffs::laws::one_cutoff();
    steps_are_kept();
}

/// With fewer applicants and more seats the cutoffs of each step only widen.
pub fn cutoffs_only_widen()
    ensures { CutoffsOnlyWiden }
{
    merit_choice::laws::choice_size();
    open_then_category::laws::choices_meet_axioms();
    axiom_laws::laws::one_meets_the_axioms_of_a_step();
    step_cutoffs::laws::admitted_stay();
    step_cutoffs::laws::eased_is_wider();
}

/// Who meets the cutoff of a step meets it later too.
pub fn who_meets_still_meets()
    ensures { WhoMeetsStillMeets }
{
    merit_choice::laws::choice_size();
    open_then_category::laws::choices_meet_axioms();
    axiom_laws::laws::one_meets_the_axioms_of_a_step();
    step_cutoffs::laws::admitted_stay();
    step_cutoffs::laws::cutoff_exists();
    step_cutoffs::laws::eased_is_wider();
}
