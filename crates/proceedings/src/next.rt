// What comes next: what everybody seeks, the rows of a round and the final ones, and the table of the next window.
ghost use Rattle.std.specs.Prelude.{◌≡◌, IfOk, length};
ghost use Rattle.office_moves.specs.Facts.{lists_in_order};
ghost use Rattle.office_moves.specs.Moves.{IsNextRound, allot_rows, final_rows, kept_programmes, next_seeks};
ghost use Rattle.answer_table.specs.Turns.{no_turns};
ghost use Rattle.rounds.specs.Rule.{AreSeeks};

use crate::book::Proceedings;
use answer_table::AnswerTable;
use kept_rows::AllotRows;
use office_base::{OutOfMemory, ProgId};
use rounds::{Round, Seeks};
use std::alloc::Global;

impl Proceedings {
    ghost use Rattle.proceedings.specs.Proceeding.{table_along};

    /// What everybody seeks next, by the turns of the open window.
    fn seeks_by(&self, alloc: Global, table: &AnswerTable) -> Result<Seeks, OutOfMemory>
        requires { table.now ≡ table_along self.now.season self.now.state self.now.state.now }
        ensures { IfOk result (λ seeks. seeks ≡ next_seeks self.now.season self.now.state) }
    {
        let people = self.season.register.people();
        let choices = &self.season.choices;
        let left = self.left.as_slice();
        cut_arrays::seeks_after(alloc, people, choices, left, table, self.rounds.last())
    }

    /// The final rows, by the turns of the open window.
    fn final_rows_by(&self, alloc: Global, table: &AnswerTable) -> Result<AllotRows, OutOfMemory>
        requires { table.now ≡ table_along self.now.season self.now.state self.now.state.now }
        ensures { IfOk result (λ rows. rows ≡ final_rows self.now.season self.now.state) }
    {
        let people = self.season.register.people();
        let rounds = self.season.rounds;
        let left = self.left.as_slice();
        cut_arrays::final_rows(alloc, people, rounds, left, table, self.rounds.last())
    }

    /// The programmes of the seats that are kept, by the turns of the open window.
    fn kept_by(
        &self,
        alloc: Global,
        table: &AnswerTable,
    ) -> Result<Vec<Option<ProgId>>, OutOfMemory>
        requires { table.now ≡ table_along self.now.season self.now.state self.now.state.now }
        ensures { IfOk result (λ kept. kept.items
            ≡ kept_programmes self.now.season self.now.state) }
    {
        let _people = self.season.register.people();
        cut_arrays::kept_programmes(alloc, self.left.as_slice(), table, self.rounds.last())
    }

    /// For each of the people, in the order of the register, the programme of the seat that they keep at the next cut, and which is
    /// guaranteed to them.
    pub fn guaranteed(&self, alloc: Global) -> Result<Vec<Option<ProgId>>, OutOfMemory>
        ensures { IfOk result (λ kept. kept.items
            ≡ kept_programmes self.now.season self.now.state) }
    {
        match self.turns.get(usize::from(self.window)) {
            Some(table) => self.kept_by(alloc, table),
            None => {
                let table = self.next_table(alloc)?;
                self.kept_by(alloc, &table)
            }
        }
    }

    /// What everybody seeks in the next round, along the register.
    pub fn seeks(&self, alloc: Global) -> Result<Seeks, OutOfMemory>
        ensures seeks { IfOk result (λ seeks. seeks ≡ next_seeks self.now.season self.now.state) }
        ensures fit { AreSeeks (lists_in_order self.now.season)
            (next_seeks self.now.season self.now.state) }
    {
        match self.turns.get(usize::from(self.window)) {
            Some(table) => self.seeks_by(alloc, table),
            None => {
                let table = self.next_table(alloc)?;
                self.seeks_by(alloc, &table)
            }
        }
    }

    /// The rows of the next round, one for each of the people who has a seat in it.
    pub fn allot_rows(&self, alloc: Global, round: &Round) -> Result<AllotRows, OutOfMemory>
        requires { IsNextRound self.now.season self.now.state round.now }
        ensures { IfOk result (λ rows. rows ≡ allot_rows self.now.season round.now) }
    {
        let people = self.season.register.people();
        cut_arrays::rows_of_round(alloc, people, round.number, round.seats.as_slice())
    }

    /// The final rows, one for each of the people who keeps a seat of the last round.
    pub fn final_rows(&self, alloc: Global) -> Result<AllotRows, OutOfMemory>
        ensures { IfOk result (λ rows. rows ≡ final_rows self.now.season self.now.state) }
    {
        match self.turns.get(usize::from(self.window)) {
            Some(table) => self.final_rows_by(alloc, table),
            None => {
                let table = self.next_table(alloc)?;
                self.final_rows_by(alloc, &table)
            }
        }
    }

    /// The table of the next window, in which nobody has taken a turn.
    pub fn next_table(&self, alloc: Global) -> Result<AnswerTable, OutOfMemory>
        ensures { IfOk result (λ table. table ≡ no_turns (length self.now.season.people)) }
    {
        AnswerTable::new(alloc, self.season.register.people().len())
    }
}
