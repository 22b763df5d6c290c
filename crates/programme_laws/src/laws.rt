// The laws of a programme's choice, for those who apply. Each is the contract of a function that does nothing.
ghost use Rattle.programme_laws.specs.Laws.{AdmittedMayStand, BeingBetterOffNeverHurts, EmptySeatsRefuseNobody, NobodyIsPassedOver};

/// States that a programme passes nobody over for somebody who is worse, holds no other trait, and has a seat for
/// which the better one may compete.
pub fn nobody_is_passed_over()
    ensures { NobodyIsPassedOver }
{
    merit_choice::laws::in_merit_ranks();
    merit_choice::laws::nobody_passed_over();
}

/// A step with a seat left refuses no applicant who may compete for it.
pub fn empty_seats_refuse_nobody()
    ensures { EmptySeatsRefuseNobody }
{
    merit_choice::laws::in_merit_ranks();
    merit_choice::laws::choice_size();
}

/// Whom a step admits may compete for it.
pub fn admitted_may_stand()
    ensures { AdmittedMayStand }
{}

/// A trait, a category, a common place or a better place more never costs an applicant a seat of the programme.
pub fn being_better_off_never_hurts()
    ensures { BeingBetterOffNeverHurts }
{
    merit_choice::laws::choice_exists();
    merit_choice::laws::leaving_out_refused();
}
