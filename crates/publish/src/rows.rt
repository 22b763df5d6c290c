// The reader of rows: the texts of rounds and of final admissions.
ghost use Rattle.std.specs.Prelude.{◌≡◌, ◌<◌, ◌≤◌, ◌+◌, ◌-◌, ◌^◌, ◌∷◌, [], ◌++◌, ℕ, List, IfNone, IfSome, IfOk, OnOk, IsTrue, ◌↔◌, length};
ghost use Rattle.kept_rows.specs.declared.rows.AllotRow.{AllotRow as AnyRow};
ghost use Rattle.text_readers.specs.Parts.{AreSmall, AreSpelled};
ghost use Rattle.text_readers.specs.Reading.{Begins, EndsWithLines, HasNo, IsAnswered, IsRefused, IsWhole, Leads};
ghost use Rattle.publish.specs.Reader.{KeepsRows, grammar_of, lines_left};
ghost use Rattle.publish.specs.Rows.{CanGoOn, IsEnd, IsNumber, IsRest, IsRowsText, Read, ending, rows_with, word};

use crate::head::{Head, begins_head, read_head};
use crate::parts::{Row, people_after, read_row};
use crate::pieces::begins_rows;
use crate::sort::Sort;
use crate::stage::Stage;
use kept_rows::{AllotRow, AllotRows};
use office_base::{OutOfMemory, Person};
use seat_matrix::Matrix;
use text_readers::{LineReader, begins_whole};

/// Holds a text of rows while it is read.
#[derive(Drop)]
pub(crate) struct RowsReader<'a> {
    pub(crate) matrix: &'a Matrix,
    /// The people after the candidate of the last row.
    pub(crate) people: &'a [Person],
    pub(crate) sort: Sort,
    pub(crate) stage: Stage,
    pub(crate) number: u16,
    /// The rows to come.
    pub(crate) left: usize,
    pub(crate) rows: AllotRows,
}

/// Returns the first word of a row.
fn row_word(sort: Sort) -> &'static [u8]
    ensures { result.now ≡ word sort }
{
    match sort {
        Sort::Round => b"allot ",
        Sort::Final => b"admit ",
    }
}

/// Returns the last line.
fn last_line(sort: Sort) -> &'static [u8]
    ensures { result.now ≡ ending sort }
{
    match sort {
        Sort::Round => b"end round",
        Sort::Final => b"end final",
    }
}

/// Returns the greatest number of rows that these people can have: one for each, where there is a programme.
fn most_rows(matrix: &Matrix, people: &[Person]) -> u32
    requires { length people.now < 2 ^ 31 }
    ensures few { (count : ℕ) → count ≤ result → CanGoOn matrix.now people.now count }
    ensures all { (count : ℕ) → CanGoOn matrix.now people.now count → count ≤ result }
{
    if matrix.count() == 0 {
        0
    } else {
        people.len() as u32
    }
}

/// Returns what the first line of a text says, if a text can continue after it.
fn first_line(
    matrix: &Matrix,
    people: &[Person],
    sort: Sort,
    known: u16,
    line: &[u8],
) -> Option<Head>
    requires few { length people.now < 2 ^ 31 }
    requires line { HasNo 10 line.now }
    ensures some { IfSome result (λ head. Leads (IsRowsText sort matrix.now people.now known)
        (IsRest sort matrix.now people.now head.number head.count []) line.now) }
    ensures few { IfSome result (λ head. head.count ≤ length people.now) }
    ensures none { IfNone result
        (IsRefused (IsRowsText sort matrix.now people.now known) line.now) }
{
    match read_head(sort, known, line) {
        Some(head) => {
            if head.count <= most_rows(matrix, people) {
                Some(head)
            } else {
                None
            }
        }
        None => None,
    }
}

/// Returns the row of a line, and the people after its candidate, where as many rows as are left, with this one, can follow.
fn next_row<'a>(
    matrix: &Matrix,
    people: &'a [Person],
    sort: Sort,
    left: usize,
    line: &[u8],
) -> Option<(Row, &'a [Person])>
    requires spelled { AreSpelled matrix.now }
    requires small { AreSmall people.now }
    requires some { 0 < left }
    requires line { HasNo 10 line.now }
    ensures some { IfSome result (λ it. (number : ℕ) (rows : List AnyRow)
        → Leads (IsRest sort matrix.now people.now number left rows)
        (IsRest sort matrix.now it.1.now number (left - 1) (rows_with number rows it.0)) line.now) }
    ensures small { IfSome result (λ next. AreSmall next.1.now) }
    ensures few { IfSome result (λ next. length next.1.now ≤ length people.now) }
    ensures none { IfNone result ((number : ℕ) (rows : List AnyRow)
        → IsRefused (IsRest sort matrix.now people.now number left rows) line.now) }
{
    let row = match read_row(matrix, row_word(sort), line) {
        Some(row) => row,
        None => return None,
    };
    match people_after(people, row.cand.0) {
        Some(next) => {
            if left <= next.len() + 1 {
                Some((row, next))
            } else {
                None
            }
        }
        None => None,
    }
}

/// Returns whether a piece of a line begins the next one of the rows and the last line.
fn begins_next(matrix: &Matrix, people: &[Person], sort: Sort, left: usize, piece: &[u8]) -> bool
    requires spelled { AreSpelled matrix.now }
    requires small { AreSmall people.now }
    requires piece { HasNo 10 piece.now }
    ensures { (number : ℕ) (rows : List AnyRow)
        → IsTrue result ↔ Begins (IsRest sort matrix.now people.now number left rows) piece.now }
{
    if left == 0 {
        begins_whole(piece, last_line(sort))
    } else {
        begins_rows(matrix, row_word(sort), people, left, piece)
    }
}

impl RowsReader<'_> {
    /// Takes the first line.
    fn take_head(&mut self, line: &[u8]) -> bool
        requires keeps { KeepsRows self.old }
        requires stage { self.old.stage ≡ Stage.Head }
        requires line { HasNo 10 line.now }
        ensures answered { IsAnswered (grammar_of self.old) (grammar_of self.new) line.now result }
        ensures keeps { IsTrue result → KeepsRows self.new }
        ensures left { IsTrue result → lines_left self.new.stage (length self.new.people.now)
            self.new.left < lines_left self.old.stage (length self.old.people.now) self.old.left }
    {
        let Some(head) = first_line(self.matrix, self.people, self.sort, self.number, line) else {
            return false;
        };
        self.stage = Stage::Rows;
        self.number = head.number;
        self.left = head.count as usize;
        true
    }

    /// Takes the last line.
    fn take_last(&mut self, line: &[u8]) -> bool
        requires keeps { KeepsRows self.old }
        requires stage { self.old.stage ≡ Stage.Rows }
        requires left { self.old.left ≡ 0 }
        requires line { HasNo 10 line.now }
        ensures answered { IsAnswered (grammar_of self.old) (grammar_of self.new) line.now result }
        ensures keeps { IsTrue result → KeepsRows self.new }
        ensures left { IsTrue result → lines_left self.new.stage (length self.new.people.now)
            self.new.left < lines_left self.old.stage (length self.old.people.now) self.old.left }
    {
        if line == last_line(self.sort) {
            self.stage = Stage::Done;
            true
        } else {
            false
        }
    }

    /// Takes the line of a row.
    fn take_row(&mut self, line: &[u8]) -> Result<bool, OutOfMemory>
        requires keeps { KeepsRows self.old }
        requires stage { self.old.stage ≡ Stage.Rows }
        requires left { 0 < self.old.left }
        requires line { HasNo 10 line.now }
        ensures answered { IfOk result (λ taken.
            IsAnswered (grammar_of self.old) (grammar_of self.new) line.now taken) }
        ensures keeps { IfOk result (λ taken. IsTrue taken → KeepsRows self.new) }
        ensures left { IfOk result (λ taken. IsTrue taken
            → lines_left self.new.stage (length self.new.people.now) self.new.left
            < lines_left self.old.stage (length self.old.people.now) self.old.left) }
    {
        let Some((row, next)) = next_row(self.matrix, self.people, self.sort, self.left, line)
        else {
            return Ok(false);
        };
        self.rows.extend_from_slice(&[AllotRow {
            round: self.number,
            cand: row.cand,
            prog: row.prog,
            step: row.step,
        }])?;
        self.people = next;
        self.left -= 1;
        Ok(true)
    }
}

impl LineReader for RowsReader<'_> {
    ghost use Rattle.std.specs.Prelude.{length};
    ghost use Rattle.publish.specs.Reader.{KeepsRows, grammar_of, lines_left};
    ghost use Rattle.publish.specs.Rows.{Read};

    ghost Value = { Read };

    ghost grammar = { grammar_of };

    ghost value = { λ r. (r.number, r.rows) };

    ghost left = { λ r. lines_left r.stage (length r.people.now) r.left };

    ghost keeps = { KeepsRows };

    fn take(&mut self, line: &[u8]) -> Result<bool, OutOfMemory> {
        match self.stage {
            Stage::Head => Ok(self.take_head(line)),
            Stage::Rows => {
                if self.left == 0 {
                    Ok(self.take_last(line))
                } else {
                    self.take_row(line)
                }
            }
            Stage::Done => Ok(false),
        }
    }

    fn begins(&self, piece: &[u8]) -> bool {
        match self.stage {
            Stage::Head => {
                let most = most_rows(self.matrix, self.people);
                begins_head(self.sort, self.number, most, piece)
            }
            Stage::Rows => { begins_next(self.matrix, self.people, self.sort, self.left, piece) }
            Stage::Done => false,
        }
    }

    fn is_whole(&self) -> bool {
        match self.stage {
            Stage::Head => false,
            Stage::Rows => false,
            Stage::Done => true,
        }
    }
}
