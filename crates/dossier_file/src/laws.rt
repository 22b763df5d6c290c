// Laws of dossiers themselves, for any reader.
ghost use Rattle.std.specs.Prelude.{ℕ, List};
ghost use Rattle.dossier_file.specs.Laws.{HaveOneDossier, TextsAreOne};

/// Bytes that are a dossier have no fault, and bytes have one first fault at most. Texts by its season can be read.
pub fn one_dossier()
    ensures { (bytes : List ℕ) → HaveOneDossier bytes }
{
    season_file::laws::one_reading();
}

/// The texts that the requests of a season publish say one thing alone.
pub fn texts_are_one()
    ensures { TextsAreOne }
{
    publish::laws::rounds_are_one();
    list_texts::laws::lists_are_one();
    publish::laws::finals_are_one();
}
