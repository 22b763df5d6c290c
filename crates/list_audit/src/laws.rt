// What holds of audited lists, over the definitions alone.
ghost use Rattle.list_audit.specs.Laws.{OneListFault, SoundListsAreTheChoice};
ghost use Rattle.list_audit.specs.Reckoning.{Reckoned};

/// States that a person who is not listed overtakes one of those listed exactly when the person is better than one
/// who is not needed, or can take the place of one of the needed who is worse.
pub fn reckoned()
    ensures { Reckoned }
{}

/// Lists of a programme that break no clause name its choice.
pub fn sound_lists()
    ensures { SoundListsAreTheChoice }
{
    axiom_laws::laws::single_exchanges();
    merit_choice::laws::ranked_part();
    merit_choice::laws::in_merit_ranks();
}

/// Lists break no clause, or one of them first, for one candidate.
pub fn one_fault()
    ensures { OneListFault }
{}
