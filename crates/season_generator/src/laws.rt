// Laws of what the generator makes up: each place of a list once, and of the whole season for any reader.
ghost use Rattle.std.specs.Prelude.{ℕ, IsPermutation};
ghost use Rattle.std.specs.List.{range_with_len};
ghost use Rattle.season_generator.specs.Bundle.{places};
ghost use Rattle.season_generator.specs.Laws.{GeneratedHasNoFault, GeneratedIsBundle};

/// Each list has the places from 1 to `n`, each once.
pub fn each_place_once()
    ensures { (n state : ℕ) → IsPermutation (range_with_len 1 n) (places n state) }
{}

/// A generated season is a season bundle: its bytes give a season with its requests.
pub fn generated_is_bundle()
    ensures { GeneratedIsBundle }
{
    office_text::laws::numbers_are_inverse();
    each_place_once();
    rank_lists::laws::one_reading();
    seat_matrix::laws::one_reading();
    choice_lists::laws::one_reading();
}

/// So its bytes have no fault.
pub fn generated_has_no_fault()
    ensures { GeneratedHasNoFault }
{
    generated_is_bundle();
    season_file::laws::one_reading();
}
