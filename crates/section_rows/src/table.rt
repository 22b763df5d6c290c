// The reader of tables: a header row, and then one row after another, up to the first fault.
ghost use Rattle.std.specs.Prelude.{◌≡◌, [], List, Ok, IfOk, IfErr, OnOk};
ghost use Rattle.section_rows.specs.Rows.{Row, rows_of, same_fields};
ghost use Rattle.section_rows.specs.Table.{Reading, IsPut, IsTableFault, table_of};

use crate::fault::TableFault;
use crate::rows::Rows;
use office_base::OutOfMemory;
use std::alloc::Global;

/// What a table is read into, one row after another.
pub trait TableBuilder {
    /// What can be wrong with a row.
    type Kind;

    /// What a row gives.
    ghost Entry: { Type 0 };

    /// The fields of the header.
    ghost names: { Row };

    /// The fault of a header that is missing or another one.
    ghost bad: { Self.Kind };

    /// What a table is read with: what the builder looks up for a row.
    ghost Beside: { Type 0 };

    /// What this builder looks up.
    ghost beside: { Self → Beside };

    /// What a row gives after the entries of the rows before it.
    ghost reading: { Beside → Reading Entry Self.Kind };

    /// The builder has these entries.
    ghost keeps: { Self → List Entry → Type 0 };

    /// Whether the row is the header.
    fn is_header(row: &Rows<'_>) -> bool
        ensures { result ≡ same_fields row.now.row names };

    /// The fault of a header that is missing or another one.
    fn bad_header() -> Self::Kind
        ensures { result ≡ bad };

    /// Puts in what a row gives, or returns the first of its faults. After a fault, or when memory runs out, the
    /// builder is of no use any more.
    fn put(&mut self, row: &Rows<'_>) -> Result<Option<Self::Kind>, OutOfMemory>
        requires { (entries : List Entry) × keeps self.old entries }
        ensures put { IfOk result (λ fault. (entries : List Entry) → keeps self.old entries → IsPut
            (reading (beside self.old) entries row.now.row) entries (keeps self.new) fault) }
        ensures beside { OnOk result (beside self.new ≡ beside self.old) };
}

/// Reads the table that the body of a section spells into an empty builder, or returns the first fault by rows. After
/// a fault the builder is of no use any more.
pub fn read_table<B: TableBuilder>(
    alloc: Global,
    body: &[u8],
    builder: &mut B,
) -> Result<(), TableFault<B::Kind>>
    requires { B.keeps builder.old [] }
    ensures entries { OnOk result ((entries : List B.Entry) × (table_of B.bad B.names
        (B.reading (B.beside builder.old)) (rows_of body.now) ≡ Ok entries)
        × B.keeps builder.new entries) }
    ensures beside { OnOk result (B.beside builder.new ≡ B.beside builder.old) }
    ensures fault { IfErr result (IsTableFault
        (table_of B.bad B.names (B.reading (B.beside builder.old)) (rows_of body.now))) }
{
    let mut rows = Rows::new(alloc, body);
    if !rows.advance()? || !B::is_header(&rows) {
        return Err(TableFault::Bad {
            row: 1,
            kind: B::bad_header(),
        });
    }
    let mut number: u32 = 1;
    'rows: while rows.advance()? {
        // no builder of the office takes so many rows without a fault
        let Some(next) = number.checked_add(1) else {
            return Err(TableFault::OutOfMemory);
        };
        number = next;
        if let Some(kind) = builder.put(&rows)? {
            return Err(TableFault::Bad { row: number, kind });
        }
    }
    Ok(())
}
