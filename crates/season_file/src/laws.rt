// Laws of bundles themselves, for any reader.
ghost use Rattle.std.specs.Prelude.{◌≡◌, ℕ, Bool, true, List, Ok};
ghost use Rattle.season_file.specs.Bundle.{Parts, bundle_of};
ghost use Rattle.season_file.specs.Laws.{HaveOneReading};
ghost use Rattle.season_file.specs.Replaced.{IsReplaceable};
ghost use Rattle.season_file.specs.Titles.{IsCutAtTitles};

/// Shows that bytes give one season with its requests, which is sound, or have one first fault, and never both: where requests
/// are read, and where they are not.
pub fn one_reading()
    ensures { (requests : Bool) (bytes : List ℕ) → HaveOneReading requests bytes }
{
    rank_lists::laws::one_reading();
    seat_matrix::laws::one_reading();
    choice_lists::laws::one_reading();
}

/// The section lines of a bundle are the lines that begin with `[`, and title lines with the bodies between them give its bytes
/// back.
pub fn sections_stand_between_titles()
    ensures { (requests : Bool) (bytes : List ℕ) (parts : Parts)
        → bundle_of requests bytes ≡ Ok parts → IsCutAtTitles bytes parts }
{}

/// States that another body may take the place of the choices: the bytes with it are cut into the same parts with
/// that body.
pub fn choices_may_be_replaced()
    ensures { (bytes : List ℕ) (parts : Parts)
        → bundle_of true bytes ≡ Ok parts → IsReplaceable bytes parts }
{}
