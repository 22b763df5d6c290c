// The laws of two readings and runs of the same bytes. Each is the contract of a function that does nothing.
ghost use Rattle.one_output.specs.Laws.{GiveOneSeason, OneOutput, OneTally};
ghost use Rattle.one_output.specs.VerdictLaws.{OneDossierOfBytes, OneVerdictOfBytes};

/// Bytes give one season and one script.
/// So does the text of a season that is kept, or is in a dossier. What the season says is sound.
pub fn one_season()
    ensures { GiveOneSeason }
{
    season_file::laws::one_reading();
}

/// So the requests of a bundle have one output, and lead to one state.
pub fn one_output()
    ensures { OneOutput }
{
    one_season();
    season_commands::laws::one_run();
}

/// And each of the requests has one reply.
pub fn one_tally()
    ensures { OneTally }
{
    one_season();
    season_commands::laws::one_tally();
}

/// Bytes are one dossier: they say one thing of a season, of its requests, and of what was published.
pub fn one_dossier_of_bytes()
    ensures { OneDossierOfBytes }
{
    one_season();
    dossier_file::laws::one_dossier();
    dossier_file::laws::texts_are_one();
}

/// The bytes of a dossier have one verdict, on seasons of the same matrix.
pub fn one_verdict_of_bytes()
    ensures { OneVerdictOfBytes }
{
    one_dossier_of_bytes();
    audit_rules::laws::one_verdict();
}
