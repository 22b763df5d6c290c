// The laws that the axioms name one choice alone. Each is the contract of a function that does nothing.
ghost use Rattle.axiom_laws.specs.Laws.{AxiomsAreTheRule, OneMeetsTheAxioms, OneMeetsTheAxiomsOfAStep, SingleExchanges};

/// Where no single exchange improves those listed, who honour as much as all people of the step, they are its choice.
pub fn single_exchanges()
    ensures { SingleExchanges }
{
    merit_choice::laws::one_too_many();
    merit_choice::laws::refused_stays_refused();
    merit_choice::laws::choice_exists();
    merit_choice::laws::choice_size();
    merit_choice::laws::seats_for_all();
    merit_choice::laws::with_person_ranks();
    merit_choice::laws::ranked_part();
    merit_choice::laws::ranked_in_merit();
    merit_choice::laws::part_can_be_ranked();
}

/// Only the choice of a step meets its axioms.
pub fn one_meets_the_axioms_of_a_step()
    ensures { OneMeetsTheAxiomsOfAStep }
{
    single_exchanges();
    merit_choice::laws::ranked_part();
}

/// Only the choice of a programme meets the axioms at each of its steps.
pub fn one_meets_the_axioms()
    ensures { OneMeetsTheAxioms }
{
    one_meets_the_axioms_of_a_step();
    merit_choice::laws::in_merit_ranks();
    merit_choice::laws::ranked_part();
}

/// Admissions are the choice of a programme exactly where they meet the axioms at each of its steps.
pub fn axioms_are_the_rule()
    ensures { AxiomsAreTheRule }
{
    one_meets_the_axioms();
    open_then_category::laws::choices_meet_axioms();
    merit_choice::laws::in_merit_ranks();
}
