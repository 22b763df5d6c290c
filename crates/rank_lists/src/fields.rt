// The fields of a row of the register.
ghost use Rattle.std.specs.Prelude.{◌≡◌};
ghost use Rattle.rank_lists.specs.Fields.{category_of, place_of};

use office_base::limits::LAST_PLACE;
use office_base::{CATEGORY_STEPS, Category, Place};
use office_text::{is_named, read_number};

/// The category that a text spells: `GEN`, or a name of the step of a category.
pub(crate) fn read_category(text: &[u8]) -> Option<Category>
    ensures { result ≡ category_of text.now }
{
    if text == b"GEN".as_slice() {
        return Some(Category::Gen);
    }
    for row in CATEGORY_STEPS {
        if is_named(text, row.step) {
            return Some(row.category);
        }
    }
    None
}

/// The place that a text spells: nothing for none, a number for a common place, a number with `R` for a relaxed one.
pub(crate) fn read_place(text: &[u8]) -> Option<Place>
    ensures { result ≡ place_of text.now }
{
    if text.is_empty() {
        return Some(Place::Absent);
    }
    let end = text.len() - 1;
    if text[end] == b'R' {
        Some(Place::Relaxed(read_number(&text[..end], 1, LAST_PLACE)?))
    } else {
        Some(Place::Common(read_number(text, 1, LAST_PLACE)?))
    }
}
