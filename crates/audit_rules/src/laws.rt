// What holds of verdicts, over the definitions alone. Each is the contract of a function that does nothing.
ghost use Rattle.audit_rules.specs.Laws.{EveryTextIsTaken, OneVerdict, SoundIsFair};

/// The verdict on the papers of a season is one.
pub fn one_verdict()
    ensures { OneVerdict }
{
    list_audit::laws::one_fault();
}

/// Each text of a round is taken by the request that publishes this round, and the final cut by one that finishes.
pub fn every_text_is_taken()
    ensures { EveryTextIsTaken }
{}

/// Where no clause is broken, each text of a round is taken, and its round is fair.
/// The lists name whom each programme chooses, nobody has a justified claim, and nobody falls.
pub fn sound_is_fair()
    ensures { SoundIsFair }
{
    seat_matrix::laws::one_step_changes();
    list_audit::laws::sound_lists();
    open_then_category::laws::one_programme_choice();
    round_laws::laws::choose_well();
    every_text_is_taken();
}
