// The tables in memory, which both keepers in memory hold.
ghost use Rattle.std.specs.Prelude.{◌≡◌, ◌≤◌, ◌<◌, ◌-◌, ◌+◌, ℕ, Bool, true, false, List, Some, OnOk, OnErr, IfOk, IsTrue, MatchOption, length, vec_len, vec_capacity};
ghost use Rattle.kept_rows.specs.declared.rows.AllotRow.{AllotRow as Seat};
ghost use Rattle.keeper_mem.specs.Batch.{with_all, with_put};
ghost use Rattle.keeper_mem.specs.Memory.{tables_of};
ghost use Rattle.kept_rows.specs.Tables.{Tables, NoSeason, Records, with_season, with_answer, with_raise, with_cut, IsFound, IsLoaded, IsTold};

use crate::Put;
use kept_rows::{AllotRow, AnswerRow, Kept, RaiseRow};
use office_base::{Listed, OutOfMemory, Text};
use std::alloc::Global;
use std::marker::Model;

/// The tables of one season, or of none. `spare` is how many answers were promised room, which is there.
#[derive(Drop)]
pub(crate) struct Memory {
    alloc: Global,
    season: Option<Text>,
    answers: Vec<AnswerRow>,
    raises: Vec<RaiseRow>,
    allots: Vec<AllotRow>,
    cuts: u16,
    spare: usize,
}

impl Model for Memory {
    ghost use Rattle.std.specs.Prelude.{◌≤◌, ◌+◌, vec_len, vec_capacity};
    ghost use Rattle.keeper_mem.specs.Memory.{Memory as Seen, tables_of};

    ghost Value = { Seen };

    ghost view = { λ a. record { tables = tables_of a.season a.answers.items a.raises.items a.allots.items a.cuts; spare = a.spare } };

    ghost invariant = { λ a. a.spare + vec_len a.answers ≤ vec_capacity a.answers };
}

impl Memory {
    /// Makes tables without a season. It allocates nothing.
    pub fn new(alloc: Global) -> Memory
        ensures { result ≡ record { tables = NoSeason; spare = 0 } }
    {
        Memory {
            alloc,
            season: None,
            answers: Vec::new(alloc),
            raises: Vec::new(alloc),
            allots: Vec::new(alloc),
            cuts: 0,
            spare: 0,
        }
    }

    /// Makes tables with the records of a season.
    pub fn from_kept(alloc: Global, kept: Kept) -> Result<Memory, OutOfMemory>
        ensures { IfOk result (λ memory. memory ≡ record { tables = Records kept; spare = 0 }) }
    {
        let answers = Vec::from_slice(alloc, kept.answers.as_slice())?;
        let raises = Vec::from_slice(alloc, kept.raises.as_slice())?;
        let allots = Vec::from_slice(alloc, kept.allots.as_slice())?;
        Ok(Memory {
            alloc,
            season: Some(kept.season),
            answers,
            raises,
            allots,
            cuts: kept.cuts,
            spare: 0,
        })
    }

    /// Returns whether a season is kept.
    pub fn has_season(&self) -> bool
        ensures found { IsFound result self.now.tables }
        ensures told { IsTold self.now.tables }
    {
        self.season.is_some()
    }

    /// Keeps the text of a season. No season may be kept yet.
    pub fn put_season(&mut self, text: &[u8]) -> Result<(), OutOfMemory>
        requires { IsFound false self.old.tables }
        ensures ok { OnOk result (self.new
            ≡ record { tables = with_season text.now self.old.tables; spare = self.old.spare }) }
        ensures err { OnErr result (self.new ≡ self.old) }
    {
        let kept = Listed::from_vec(Vec::from_slice(self.alloc, text)?);
        self.answers.clear();
        self.raises.clear();
        self.allots.clear();
        self.cuts = 0;
        self.season = Some(kept);
        Ok(())
    }

    /// Takes room for this many answers.
    pub fn reserve_answers(&mut self, n: u32) -> Result<(), OutOfMemory>
        ensures ok { OnOk result (n ≤ self.new.spare) }
        ensures spare { self.old.spare ≤ self.new.spare }
        ensures tables { self.new.tables ≡ self.old.tables }
        ensures err { OnErr result (self.new ≡ self.old) }
    {
        let wanted = n as usize;
        self.answers.reserve(wanted)?;
        self.spare = self.spare.max(wanted);
        Ok(())
    }

    /// Puts an answer after the others.
    pub fn put_answer(&mut self, row: AnswerRow) -> Result<(), OutOfMemory>
        requires { IsFound true self.old.tables }
        ensures ok { OnOk result (self.new
            ≡ record { tables = with_answer row self.old.tables; spare = self.old.spare - 1 }) }
        ensures err { OnErr result (self.new ≡ self.old) }
        ensures memory { OnErr result (self.old.spare ≡ 0) }
    {
        if self.spare > 0 {
            self.spare -= 1;
        }
        self.answers.push(row)?;
        Ok(())
    }

    /// Puts a raise after the others.
    pub fn put_raise(&mut self, row: RaiseRow) -> Result<(), OutOfMemory>
        requires { IsFound true self.old.tables }
        ensures ok { OnOk result (self.new
            ≡ record { tables = with_raise row self.old.tables; spare = self.old.spare }) }
        ensures err { OnErr result (self.new ≡ self.old) }
    {
        self.raises.push(row)?;
        Ok(())
    }

    /// Puts rows after the others, in their order: all of them or none.
    pub fn put_all(&mut self, rows: &[Put]) -> Result<(), OutOfMemory>
        requires { IsFound true self.old.tables }
        ensures tables { OnOk result (self.new.tables ≡ with_all rows.now self.old.tables) }
        ensures spare { OnOk result (self.new.spare ≡ self.old.spare - length rows.now) }
        ensures err { OnErr result (self.new ≡ self.old) }
    {
        self.answers.reserve(rows.len())?;
        self.raises.reserve(rows.len())?;
        self.spare = self.spare.saturating_sub(rows.len());
        push_all(&mut self.answers, &mut self.raises, rows);
        Ok(())
    }

    /// Puts published seats after the others and adds one to the cuts.
    pub fn put_cut(&mut self, rows: &[AllotRow]) -> Result<(), OutOfMemory>
        requires { IsFound true self.old.tables }
        ensures ok { OnOk result (self.new
            ≡ record { tables = with_cut rows.now self.old.tables; spare = self.old.spare }) }
        ensures err { OnErr result (self.new ≡ self.old) }
    {
        let Some(cuts) = self.cuts.checked_add(1) else {
            return Err(OutOfMemory);
        };
        self.allots.extend_from_slice(rows)?;
        self.cuts = cuts;
        Ok(())
    }

    /// Returns a copy of all that is kept, or None if no season is.
    pub fn load(&self, alloc: Global) -> Result<Option<Kept>, OutOfMemory>
        ensures { IfOk result (λ found.
            MatchOption found (IsFound false self.now.tables) (IsLoaded self.now.tables)) }
    {
        let Some(season) = &self.season else {
            return Ok(None);
        };
        Ok(Some(Kept {
            season: season.copy(alloc)?,
            answers: Listed::from_vec(Vec::from_slice(alloc, &self.answers)?),
            raises: Listed::from_vec(Vec::from_slice(alloc, &self.raises)?),
            allots: Listed::from_vec(Vec::from_slice(alloc, &self.allots)?),
            cuts: self.cuts,
        }))
    }
}

/// Puts rows after the others, into room that is there.
fn push_all(answers: &mut Vec<AnswerRow>, raises: &mut Vec<RaiseRow>, rows: &[Put])
    requires room { vec_len answers.old + length rows.now ≤ vec_capacity answers.old }
    requires raise_room { vec_len raises.old + length rows.now ≤ vec_capacity raises.old }
    ensures tables { (text : List ℕ) (allots : List Seat) (cuts : ℕ)
        → tables_of (Some text) answers.new.items raises.new.items allots cuts
        ≡ with_all rows.now (tables_of (Some text) answers.old.items raises.old.items allots cuts) }
    ensures more { vec_len answers.new ≤ vec_len answers.old + length rows.now }
    ensures capacity { vec_capacity answers.old ≤ vec_capacity answers.new }
{
    for row in rows {
        push_one(answers, raises, *row);
    }
}

/// Puts a row after the others, into room that is there.
fn push_one(answers: &mut Vec<AnswerRow>, raises: &mut Vec<RaiseRow>, row: Put)
    requires room { vec_len answers.old < vec_capacity answers.old }
    requires raise_room { vec_len raises.old < vec_capacity raises.old }
    ensures tables { (text : List ℕ) (allots : List Seat) (cuts : ℕ)
        → tables_of (Some text) answers.new.items raises.new.items allots cuts
        ≡ with_put row (tables_of (Some text) answers.old.items raises.old.items allots cuts) }
    ensures more { vec_len answers.new ≤ vec_len answers.old + 1 }
    ensures more_raises { vec_len raises.new ≤ vec_len raises.old + 1 }
    ensures capacity { vec_capacity answers.old ≤ vec_capacity answers.new }
    ensures raise_capacity { vec_capacity raises.old ≤ vec_capacity raises.new }
{
    match row {
        Put::Answer(row) => answers.push_reserved(row),
        Put::Raise(row) => raises.push_reserved(row),
    }
}
