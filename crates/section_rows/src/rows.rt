// A reader of rows.
ghost use Rattle.std.specs.Prelude.{◌≡◌, ◌≤◌, ◌∷◌, [], MatchBool, MatchOption, IfOk, IfSome, IfNone, OnErr, length, take, map};
ghost use Rattle.csv.specs.Records.{fields_of};
ghost use Rattle.section_rows.specs.Rows.{rows_of, rows_among, without_empty_end, field, same_fields};
ghost use Rattle.section_rows.specs.Reading.{IsReading, records_left};

use csv::{ByteRecord, Error, Reader, ReaderBuilder};
use office_base::OutOfMemory;
use std::alloc::Global;
use std::marker::Model;

/// Reads the next record. An error says that memory ran out, and leaves no record.
fn read_record(reader: &mut Reader<&[u8]>, raw: &mut ByteRecord) -> Result<bool, OutOfMemory>
    requires { IsReading reader.old }
    ensures reading { IsReading reader.new }
    ensures more { IfOk result (λ more. MatchBool more (records_left reader.old
        ≡ fields_of raw.new ∷ records_left reader.new) (records_left reader.old ≡ [])) }
    ensures none { OnErr result (records_left reader.new ≡ []) }
{
    match reader.read_byte_record(raw) {
        Ok(more) => Ok(more),
        Err(fault) => Err(want_of_memory(fault)),
    }
}

/// A reader over bytes fails only where there is no memory for a record.
fn want_of_memory(_: Error) -> OutOfMemory {
    OutOfMemory
}

/// The next record with fields, and how many it has without the empty ones at its end. An error leaves none.
fn read_row(reader: &mut Reader<&[u8]>, raw: &mut ByteRecord) -> Result<Option<usize>, OutOfMemory>
    requires { IsReading reader.old }
    ensures reading { IsReading reader.new }
    ensures some { IfOk result (λ found. IfSome found (λ count. (count ≤ length (fields_of raw.new))
        × (rows_among (records_left reader.old)
        ≡ take count (fields_of raw.new) ∷ rows_among (records_left reader.new)))) }
    ensures end { IfOk result (λ found. IfNone found (rows_among (records_left reader.old) ≡ [])) }
    ensures none { OnErr result (records_left reader.new ≡ []) }
{
    'records: while read_record(reader, raw)? {
        let count = used_fields(raw);
        if count > 0 {
            return Ok(Some(count));
        }
    }
    Ok(None)
}

/// How many fields a record has without the empty ones at its end.
fn used_fields(raw: &ByteRecord) -> usize
    ensures used { take result (fields_of raw.now) ≡ without_empty_end (fields_of raw.now) }
    ensures within { result ≤ length (fields_of raw.now) }
{
    let mut count = raw.len();
    while count > 0 && field_or_empty(raw, count - 1).is_empty() {
        count -= 1;
    }
    count
}

/// The rows of a section's body, read one by one: the row at hand, and whether the end was met.
#[derive(Drop)]
pub struct Rows<'a> {
    reader: Reader<&'a [u8]>,
    raw: ByteRecord,
    fields: usize,
    ended: bool,
}

impl<'a> Model for Rows<'a> {
    ghost use Rattle.std.specs.Prelude.{◌≤◌, [], length, take, if◌then◌else◌};
    ghost use Rattle.csv.specs.Records.{fields_of};
    ghost use Rattle.section_rows.specs.Rows.{RowsAhead, rows_among};
    ghost use Rattle.section_rows.specs.Reading.{IsReading, records_left};

    ghost Value = { RowsAhead };

    ghost view = { λ a. record { row = take a.fields (fields_of a.raw); left = if a.ended then [] else rows_among (records_left a.reader) } };

    ghost invariant = { λ a. IsReading a.reader × (a.fields ≤ length (fields_of a.raw)) };
}

impl<'a> Rows<'a> {
    /// All rows of a body, before the first one.
    pub fn new(alloc: Global, body: &'a [u8]) -> Rows<'a>
        ensures { result ≡ record { row = []; left = rows_of body.now } }
    {
        Rows {
            reader: ReaderBuilder::new()
                .has_headers(false)
                .flexible(true)
                .from_reader(alloc, body),
            raw: ByteRecord::new(alloc),
            fields: 0,
            ended: false,
        }
    }

    /// Goes to the next row, and says whether there is one. At the end the row is empty and none is left, and so it is where
    /// there is no memory for a row.
    pub fn advance(&mut self) -> Result<bool, OutOfMemory>
        ensures more { IfOk result (λ more.
            MatchBool more (self.old.left ≡ self.new.row ∷ self.new.left) (self.old.left ≡ [])) }
        ensures end { IfOk result (λ more.
            MatchBool more (Unit {0}) (self.new ≡ record { row = []; left = [] })) }
        ensures none { OnErr result (self.new ≡ record { row = []; left = [] }) }
    {
        self.fields = 0;
        if self.ended {
            return Ok(false);
        }
        match read_row(&mut self.reader, &mut self.raw)? {
            Some(count) => {
                self.fields = count;
                Ok(true)
            }
            None => {
                self.ended = true;
                Ok(false)
            }
        }
    }

    /// How many fields the row has.
    pub fn len(&self) -> usize
        ensures { result ≡ length self.now.row }
    {
        self.fields
    }

    /// The field of this number, from 0. A missing one is empty.
    pub fn field(&self, at: usize) -> &[u8]
        ensures { result.now ≡ field self.now.row at }
    {
        if at < self.fields {
            field_or_empty(&self.raw, at)
        } else {
            &[]
        }
    }

    /// Whether the row has these fields and no others.
    pub fn is(&self, names: &[&[u8]]) -> bool
        ensures { result ≡ same_fields self.now.row (map (λ name. name.now) names.now) }
    {
        if self.len() != names.len() {
            return false;
        }
        'fields: for (at, name) in names.iter().enumerate() {
            if self.field(at) != *name {
                return false;
            }
        }
        true
    }
}

/// The field of this number in a record. A missing one is empty.
fn field_or_empty(raw: &ByteRecord, at: usize) -> &[u8]
    ensures { result.now ≡ field (fields_of raw.now) at }
{
    match raw.get(at) {
        Some(field) => field,
        None => &[],
    }
}
