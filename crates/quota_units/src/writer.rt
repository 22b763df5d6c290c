// Rows written in quotes: the choices with units in the place of divided programmes.
ghost use Rattle.std.specs.Prelude.{◌≡◌, ◌==◌, ◌+◌, ◌++◌, ℕ, List, Some, Ok, IfOk, IfErr, OnOk, map};
ghost use Rattle.std.specs.Io.KnownBytes.{Appends};
ghost use Rattle.csv.specs.Writing.{text_written, writer_setup};
ghost use Rattle.section_rows.specs.Rows.{Row, rows_of};
ghost use Rattle.quota_units.specs.Expansion.{IsFaultOf};
ghost use Rattle.quota_units.specs.Mapping.{mapped_from, mapped_row, mapped_rows};
ghost use Rattle.quota_units.specs.Quoted.{IsAt, comma_before, end_after, in_quotes, no_lf, quoting, row_text, rows_text, spaced, spaced_row};
ghost use Rattle.quota_units.specs.Writing.{WritesHeader, WritesRow, WritesRows, bytes_of};

use crate::ending::Ending;
use crate::fault::UnitFault;
use crate::mapping::{Tables, end_at};
use csv::{Error, QuoteStyle, Writer, WriterBuilder};
use office_base::OutOfMemory;
use section_rows::Rows;
use std::alloc::Global;

/// A writer to bytes fails only where there is no memory for them.
fn want_of_memory(_: Error) -> OutOfMemory {
    OutOfMemory
}

/// A byte, or a space where it is an LF.
fn no_lf(byte: u8) -> u8
    ensures { result ≡ no_lf byte }
{
    if byte == b'\n' { b' ' } else { byte }
}

/// Puts a field and its end into the buffer, with spaces for LFs, in place of what was there.
fn put_spaced(buffer: &mut Vec<u8>, field: &[u8], end: Ending) -> Result<(), OutOfMemory>
    ensures { OnOk result (buffer.new.items ≡ spaced (field.now ++ bytes_of end)) }
{
    buffer.clear();
    let mut rest = field;
    'bytes: while let [byte, more @ ..] = rest {
        buffer.push(no_lf(*byte))?;
        rest = more;
    }
    buffer.extend_from_slice(end.bytes())?;
    Ok(())
}

/// A writer at the end of these bytes that puts every field in quotes.
fn writer_after(bytes: Vec<u8>) -> Writer<Vec<u8>>
    ensures at { IsAt 0 result }
    ensures text { text_written (λ v. Some v.items) result ≡ Some bytes.items }
{
    WriterBuilder::new()
        .quote_style(QuoteStyle::Always)
        .flexible(true)
        .from_writer(bytes)
}

/// Writes the field of this number of a row.
fn write_field(writer: &mut Writer<Vec<u8>>, at: usize, field: &[u8]) -> Result<(), OutOfMemory>
    requires { IsAt at writer.old }
    ensures at { OnOk result (IsAt (at + 1) writer.new) }
    ensures text { OnOk result (Appends (text_written (λ v. Some v.items) writer.old) (text_written
        (λ v. Some v.items) writer.new) (comma_before (at == 0) ++ in_quotes field.now)) }
{
    match writer.write_field(field) {
        Ok(()) => Ok(()),
        Err(fault) => Err(want_of_memory(fault)),
    }
}

/// Ends a row of so many fields.
fn end_row(writer: &mut Writer<Vec<u8>>, len: usize) -> Result<(), OutOfMemory>
    requires { IsAt len writer.old }
    ensures at { OnOk result (IsAt 0 writer.new) }
    ensures text { OnOk result (Appends (text_written (λ v. Some v.items) writer.old)
        (text_written (λ v. Some v.items) writer.new) (end_after (len == 0))) }
{
    match writer.end_record() {
        Ok(()) => Ok(()),
        Err(fault) => Err(want_of_memory(fault)),
    }
}

/// Writes a row.
fn write_row(
    writer: &mut Writer<Vec<u8>>,
    row: &Rows<'_>,
    buffer: &mut Vec<u8>,
) -> Result<(), OutOfMemory>
    requires { IsAt 0 writer.old }
    ensures at { OnOk result (IsAt 0 writer.new) }
    ensures text { OnOk result (Appends (text_written (λ v. Some v.items) writer.old)
        (text_written (λ v. Some v.items) writer.new) (row_text (spaced_row row.now.row))) }
{
    let mut at = 0;
    'fields: while at < row.len() {
        put_spaced(buffer, row.field(at), Ending::Nothing)?;
        write_field(writer, at, buffer.as_slice())?;
        at += 1;
    }
    end_row(writer, at)
}

/// Writes a row of choices with units in the place of divided programmes, or returns its first fault.
fn write_mapped(
    writer: &mut Writer<Vec<u8>>,
    tables: Tables<'_>,
    number: u32,
    row: &Rows<'_>,
    buffer: &mut Vec<u8>,
) -> Result<(), UnitFault>
    requires { IsAt 0 writer.old }
    ensures at { OnOk result (IsAt 0 writer.new) }
    ensures text { OnOk result (WritesRow (text_written (λ v. Some v.items) writer.old)
        (text_written (λ v. Some v.items) writer.new)
        (mapped_row tables.entry.units.now tables.entry.states.now number row.now.row)) }
    ensures fault { IfErr result (λ fault. IsFaultOf (mapped_row tables.entry.units.now
        tables.entry.states.now number row.now.row) fault) }
{
    let mut at = 0;
    'fields: while at < row.len() {
        let end = end_at(tables, number, row, at)?;
        put_spaced(buffer, row.field(at), end)?;
        write_field(writer, at, buffer.as_slice())?;
        at += 1;
    }
    end_row(writer, at)?;
    Ok(())
}

/// Writes the rows that are left as rows of choices, of which the first is the second of all, or returns their first
/// fault.
fn write_choices(
    writer: &mut Writer<Vec<u8>>,
    tables: Tables<'_>,
    rows: &mut Rows<'_>,
    buffer: &mut Vec<u8>,
) -> Result<(), UnitFault>
    requires { IsAt 0 writer.old }
    ensures text { OnOk result (WritesRows (text_written (λ v. Some v.items) writer.old)
        (text_written (λ v. Some v.items) writer.new)
        (mapped_from tables.entry.units.now tables.entry.states.now 2 rows.old.left)) }
    ensures fault { IfErr result (λ fault. IsFaultOf (mapped_from tables.entry.units.now
        tables.entry.states.now 2 rows.old.left) fault) }
{
    let mut number: u32 = 2;
    'rows: while rows.advance()? {
        write_mapped(writer, tables, number, rows, buffer)?;
        // no memory holds so many rows
        let Some(next) = number.checked_add(1) else {
            return Err(UnitFault::OutOfMemory);
        };
        number = next;
    }
    Ok(())
}

/// Writes the first row that is left as it is, where there is one.
fn write_header(
    writer: &mut Writer<Vec<u8>>,
    rows: &mut Rows<'_>,
    buffer: &mut Vec<u8>,
) -> Result<(), OutOfMemory>
    requires { IsAt 0 writer.old }
    ensures at { OnOk result (IsAt 0 writer.new) }
    ensures text { OnOk result (WritesHeader (text_written (λ v. Some v.items) writer.old)
        (text_written (λ v. Some v.items) writer.new) rows.old.left rows.new.left) }
{
    if !rows.advance()? {
        return Ok(());
    }
    write_row(writer, rows, buffer)
}

/// Writes the header row, where there is one, and then the rows of choices.
fn write_all(
    alloc: Global,
    writer: &mut Writer<Vec<u8>>,
    tables: Tables<'_>,
    body: &[u8],
) -> Result<(), UnitFault>
    requires { IsAt 0 writer.old }
    ensures text { OnOk result (WritesRows (text_written (λ v. Some v.items) writer.old)
        (text_written (λ v. Some v.items) writer.new)
        (mapped_rows tables.entry.units.now tables.entry.states.now (rows_of body.now))) }
    ensures fault { IfErr result (λ fault. IsFaultOf (mapped_rows tables.entry.units.now
        tables.entry.states.now (rows_of body.now)) fault) }
{
    let mut rows = Rows::new(alloc, body);
    let mut buffer = Vec::new(alloc);
    write_header(writer, &mut rows, &mut buffer)?;
    write_choices(writer, tables, &mut rows, &mut buffer)
}

/// Writes the choices of a body after these bytes, with units in the place of divided programmes, or returns their
/// first fault.
pub(crate) fn write_rows(
    alloc: Global,
    bytes: Vec<u8>,
    tables: Tables<'_>,
    body: &[u8],
) -> Result<Vec<u8>, UnitFault>
    ensures text { IfOk result (λ text. (rows : List Row)
        × (mapped_rows tables.entry.units.now tables.entry.states.now (rows_of body.now) ≡ Ok rows)
        × (text.items ≡ bytes.items ++ rows_text (map spaced_row rows))) }
    ensures fault { IfErr result (λ fault. IsFaultOf (mapped_rows tables.entry.units.now
        tables.entry.states.now (rows_of body.now)) fault) }
{
    let mut writer = writer_after(bytes);
    write_all(alloc, &mut writer, tables, body)?;
    match writer.into_inner() {
        Ok(text) => Ok(text),
        Err(_) => Err(UnitFault::OutOfMemory),
    }
}
