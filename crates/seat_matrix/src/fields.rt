// The fields of a row of the matrix.
ghost use Rattle.std.specs.Prelude.{◌≡◌, ◌<◌};
ghost use Rattle.seat_matrix.specs.Fields.{count_of, protection_of, protections_of, seating_of};

use crate::seats::Seating;
use office_base::Protections;
use office_base::limits::MOST_STEP_SEATS;
use office_text::read_number;
use section_rows::Rows;

/// How many seats a text spells.
fn read_count(text: &[u8]) -> Option<u16>
    ensures { result ≡ count_of text.now }
{
    let count = read_number(text, 0, MOST_STEP_SEATS)?;
    Some(count as u16)
}

/// How many protections a text spells; nothing is 0.
fn read_protection(text: &[u8]) -> Option<u16>
    ensures { result ≡ protection_of text.now }
{
    if text.is_empty() {
        Some(0)
    } else {
        read_count(text)
    }
}

/// The protections of a row. No field follows them.
fn read_protections(row: &Rows<'_>) -> Option<[u16; 6]>
    ensures { result ≡ protections_of row.now.row }
{
    let women = read_protection(row.field(5))?;
    let disabled = read_protection(row.field(6))?;
    let servicemen = read_protection(row.field(7))?;
    let sports = read_protection(row.field(8))?;
    let fighters = read_protection(row.field(9))?;
    let local = read_protection(row.field(10))?;
    if row.len() > 11 {
        return None;
    }
    Some([women, disabled, servicemen, sports, fighters, local])
}

/// The seats of a row with their protections.
pub(crate) fn read_seating(row: &Rows<'_>) -> Option<Seating>
    ensures { result ≡ seating_of row.now.row }
{
    let seats = read_count(row.field(4))?;
    let counts = read_protections(row)?;
    Some(Seating {
        seats,
        protections: Protections { counts },
    })
}
