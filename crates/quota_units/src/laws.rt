// What holds of a plain bundle that came from one with units.
ghost use Rattle.std.specs.Prelude.{◌≡◌, ◌≤◌, ℕ, List, Ok, length, map};
ghost use Rattle.std.specs.List.{AllByRecursion};
ghost use Rattle.std.specs.Str.{IsUtf8};
ghost use Rattle.office_base.specs.Limits.{most_bundle_bytes};
ghost use Rattle.office_asks.specs.declared.ask.Request.{Request};
ghost use Rattle.section_rows.specs.Rows.{Row, rows_of};
ghost use Rattle.season_file.specs.Replaced.{IsWhole};
ghost use Rattle.season_file.specs.declared.content.Content.{Content};
ghost use Rattle.quota_units.specs.Homes.{Homes};
ghost use Rattle.quota_units.specs.Input.{expanded};
ghost use Rattle.quota_units.specs.Living.{AreRight};
ghost use Rattle.quota_units.specs.Mapping.{mapped_from};
ghost use Rattle.quota_units.specs.Quoted.{rows_text, spaced_row};
ghost use Rattle.quota_units.specs.Reads.{AllLiveRight, MappedGives, ReadsMapped};

use office_text::laws::numbers_are_inverse;

/// Reading the text is reading the bundle with every row of its choices mapped.
pub fn reads_mapped()
    ensures { (units states : Homes) (bundle text : List ℕ) → length bundle ≤ most_bundle_bytes
        → (IsUtf8 bundle → IsUtf8 text)
        → expanded units states bundle ≡ Ok text → ReadsMapped units states bundle text }
{
    read_back();
    season_file::laws::choices_may_be_replaced();
}

/// States that in mapped rows a unit is only in the rows of candidates whom it is for.
pub fn rows_are_right()
    ensures { (units states : Homes) (number : ℕ) (rows mapped : List Row) → mapped_from units
        states number rows ≡ Ok mapped → AllByRecursion (AreRight units states) mapped }
{}

/// States that a candidate who has a unit on the list lives in a state that the unit is for.
pub fn live_right()
    ensures { (units states : Homes) (bundle : List ℕ) (content : Content) (script : List Request)
        → MappedGives units states bundle content script → AllLiveRight units states content }
{
    numbers_are_inverse();
}

/// The rows of a body, with spaces for the LFs in their fields, are read from what is written of them, and no section begins in it.
pub fn read_back()
    ensures same { (body : List ℕ)
        → rows_of (rows_text (map spaced_row (rows_of body))) ≡ map spaced_row (rows_of body) }
    ensures whole { (rows : List Row) → IsWhole (rows_text (map spaced_row rows)) }
{}
