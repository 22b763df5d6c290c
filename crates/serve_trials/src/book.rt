// A book of numbered rows.
ghost use Rattle.std.specs.Prelude.{◌≡◌, ◌<◌, ℕ, List, true, map, [], ◌∷◌, ◌++◌, OnOk, OnErr};
ghost use Rattle.office_base.specs.Numbered.{last_of_numbers, rises};

use office_base::{Booked, OutOfMemory};
use office_desk::Keeps;
use std::alloc::Global;

/// A row: the number of the turn in which it was written, who wrote it, and which of the writer's rows it is.
#[derive(Clone, Copy, PartialEq, Eq, Drop)]
pub struct Row {
    pub number: u64,
    pub by: u64,
    pub nth: u64,
}

/// Rows with rising numbers, and the name of the book.
#[derive(Drop)]
pub struct Book {
    pub rows: Vec<Row>,
    pub name: u64,
    /// How many rows it had when it was opened.
    pub opened_with: u64,
    last: u64,
    ghost rising: { rises 0 (map (λ r. r.number) rows.items) ≡ true },
    ghost last_is: { last ≡ last_of_numbers (map (λ r. r.number) rows.items) },
}

impl Booked for Book {
    type Item = Row;

    ghost Basis = { ℕ };

    ghost basis = { λ b. b.name };

    ghost entries = { λ b. b.rows.items };

    ghost number = { λ r. r.number };

    ghost count = { λ b. 0 };

    fn last_number(&self) -> u64 {
        self.last
    }
}

/// It is in memory alone, so a crash leaves none of its rows.
impl Keeps for Book {
    ghost kept = { λ b. 0 };
}

impl Book {
    /// An empty book of this name. It takes no memory.
    pub fn new(alloc: Global, name: u64) -> Book
        ensures name { result.name ≡ name }
        ensures rows { result.rows.items ≡ [] }
    {
        Book {
            rows: Vec::new(alloc),
            name,
            opened_with: 0,
            last: 0,
        }
    }

    /// Writes a row at the end. Where there is no memory for it, the book is as it was.
    pub fn put(&mut self, row: Row) -> Result<(), OutOfMemory>
        requires { last_of_numbers (map (λ r. r.number) self.old.rows.items) < row.number }
        ensures name { self.new.name ≡ self.old.name }
        ensures ok { OnOk result (self.new.rows.items ≡ self.old.rows.items ++ row ∷ []) }
        ensures err { OnErr result (self.new.rows.items ≡ self.old.rows.items) }
    {
        self.rows.reserve(1)?;
        self.rows.push_reserved(row);
        self.last = row.number;
        Ok(())
    }
}
