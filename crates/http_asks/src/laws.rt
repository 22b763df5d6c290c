// What holds of the paths of pages, for every reader.
ghost use Rattle.http_asks.specs.Laws.{HaveOnePath};

use office_text::laws::numbers_are_inverse;

/// Says that each page has one path, and that this path names it.
/// A trailing slash, an escape, another spelling of a number or a further piece name no page.
pub fn pages_have_one_path()
    ensures { HaveOnePath }
{
    numbers_are_inverse();
}
