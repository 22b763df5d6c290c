// Units in the place of divided programmes.
ghost use Rattle.std.specs.Prelude.{◌≡◌, ◌++◌, Ok, Err, MatchResult};
ghost use Rattle.section_rows.specs.Rows.{field};
ghost use Rattle.quota_units.specs.Mapping.{is_unit, mapped_field};
ghost use Rattle.quota_units.specs.Writing.{bytes_of, ending_of, mapped_at};

use crate::ending::Ending;
use crate::fault::UnitFault;
use crate::homes::HomeTable;
use crate::state::State;
use section_rows::Rows;

/// The divided programmes with their home states, and the candidates with theirs.
#[derive(Clone, Copy)]
pub(crate) struct Tables<'a> {
    pub(crate) units: &'a HomeTable,
    pub(crate) states: &'a HomeTable,
}

/// Whether a text is the code of a unit of a divided programme.
fn is_unit(units: &HomeTable, text: &[u8]) -> bool
    ensures { result ≡ is_unit units.now text.now }
{
    let (base, end) = text.split_at(text.len().saturating_sub(3));
    (end == b"-HS".as_slice() || end == b"-OS".as_slice()) && units.state(base).is_some()
}

/// The end of the unit for those of a state: of the home unit for those of the home state, and of the other one for all others.
fn ending(state: State, home: State) -> Ending
    ensures { result ≡ ending_of state home }
{
    if state == home {
        Ending::Home
    } else {
        Ending::Other
    }
}

/// The end that a field of a candidate's row gets, or its fault.
fn end_of(
    tables: Tables<'_>,
    candidate: &[u8],
    number: u32,
    field: &[u8],
) -> Result<Ending, UnitFault>
    ensures { MatchResult result (λ end. mapped_field tables.entry.units.now tables.entry.states.now
        candidate.now number field.now ≡ Ok (field.now ++ bytes_of end)) (λ fault. mapped_field
        tables.entry.units.now tables.entry.states.now candidate.now number field.now ≡ Err fault) }
{
    if is_unit(tables.units, field) {
        return Err(UnitFault::DirectUnit { row: number });
    }
    let Some(home) = tables.units.state(field) else {
        return Ok(Ending::Nothing);
    };
    match tables.states.state(candidate) {
        Some(state) => Ok(ending(state, home)),
        None => Err(UnitFault::NoState { row: number }),
    }
}

/// The end that the field of this number of a row gets, or its fault: the first field is the candidate.
pub(crate) fn end_at(
    tables: Tables<'_>,
    number: u32,
    row: &Rows<'_>,
    at: usize,
) -> Result<Ending, UnitFault>
    ensures { MatchResult result (λ end. mapped_at tables.entry.units.now tables.entry.states.now
        number row.now.row at ≡ Ok (field row.now.row at ++ bytes_of end)) (λ fault. mapped_at
        tables.entry.units.now tables.entry.states.now number row.now.row at ≡ Err fault) }
{
    if at == 0 {
        Ok(Ending::Nothing)
    } else {
        end_of(tables, row.field(0), number, row.field(at))
    }
}
