// That reasons are just.
ghost use Rattle.explain.specs.Just.{ReasonsAreJust};

/// States that each step that the reason of an applicant reports counts against the person. All its seats are taken.
/// The reason reports somebody worse exactly when somebody worse was admitted. With the person in place of any such
/// one, the step would honour fewer protections.
pub fn reasons_are_just()
    ensures { ReasonsAreJust }
{
    merit_choice::laws::one_choice();
    merit_choice::laws::choice_size();
    merit_choice::laws::seats_for_all();
    merit_choice::laws::in_merit_ranks();
    merit_choice::laws::ranked_part();
    merit_choice::laws::with_person_ranks();
}
