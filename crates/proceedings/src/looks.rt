// What is looked up at the position of a candidate in the register.
ghost use Rattle.std.specs.Prelude.{◌≡◌, ◌<◌, ◌++◌, ℕ, suc, List, [], Some, IfSome, IfNone, IfOk, OnOk, length, option_map, slice_get};
ghost use Rattle.history_laws.specs.Orderly.{AreTurnsAfter};
ghost use Rattle.office_moves.specs.Moves.{in_windows};
ghost use Rattle.office_moves.specs.State.{accepted, answered, in_window, last_seat, last_turn, left_by, rows_of, standing_at, view_of};
ghost use Rattle.rank_lists.specs.Register.{row_of};
ghost use Rattle.office_base.specs.declared.choice.Choice.{Choice};
ghost use Rattle.answer_table.specs.Turns.{last_choice};
ghost use Rattle.proceedings.specs.Proceeding.{choices_in, rows_after, table_along};

use crate::book::Proceedings;
use answer_table::AnswerTable;
use kept_rows::{AnswerRow, AnswerRows};
use office_base::{CandId, Choice, Listed, OutOfMemory, Seat};
use round_options::{Standing, standing_of};
use std::alloc::Global;

impl Proceedings {
    /// The turns of each candidate in a window. None only where nothing was answered in it, since it is not open yet, or is no window of the season.
    fn table(&self, window: u16) -> Option<&AnswerTable>
        ensures some { IfSome result (λ table.
            table.now ≡ table_along self.now.season self.now.state window) }
        ensures none { IfNone result ((id : ℕ)
            → in_window window (rows_of id self.now.state.answers) ≡ []) }
        ensures turns { (id : ℕ)
            → AreTurnsAfter 0 (in_window window (rows_of id self.now.state.answers)) }
    {
        self.turns.get(usize::from(window))
    }

    /// The choice of the candidate at this position that was accepted at a window and turn.
    pub(crate) fn accepted_choice(&self, at: usize, window: u16, turn: u16) -> Option<Choice>
        requires { at < length self.now.season.people }
        ensures { option_map (λ person. accepted window turn (rows_of person.id.0
            self.now.state.answers)) (slice_get self.now.season.people at) ≡ Some result }
    {
        match self.table(window) {
            Some(table) => table.choice(at, turn),
            None => None,
        }
    }

    /// The last accepted turn of the candidate at this position in the open window, 0 where there is none.
    pub(crate) fn last_turn(&self, at: usize) -> u16
        requires { at < length self.now.season.people }
        ensures { option_map (λ person. last_turn (in_window self.now.state.now (rows_of person.id.0
            self.now.state.answers))) (slice_get self.now.season.people at) ≡ Some result }
    {
        match self.table(self.window) {
            Some(table) => table.taken(at),
            None => 0,
        }
    }

    /// Lists the accepted answers of the candidate at this position, in the order of windows and turns.
    pub(crate) fn answers(
        &self,
        alloc: Global,
        at: usize,
        cand: CandId,
    ) -> Result<AnswerRows, OutOfMemory>
        requires within { at < length self.now.season.people }
        requires place { row_of cand.0 self.now.season.people ≡ Some at }
        ensures { IfOk result (λ rows. rows
            ≡ in_windows (suc self.now.season.rounds) (rows_of cand.0 self.now.state.answers)) }
    {
        let mut rows = Listed::new(alloc);
        for window in 0..self.season.rounds + 1 {
            if let Some(table) = self.table(window) {
                push_turns(&mut rows, table, at, cand, window)?;
            }
        }
        Ok(rows)
    }

    /// How the last cut left the candidate at this position.
    pub(crate) fn standing_at_cut(&self, at: usize) -> Standing
        requires { at < length self.now.season.people }
        ensures { option_map (λ person. left_by self.now.season (view_of self.now.state person.id.0)
            person.id.0 self.now.state.now) (slice_get self.now.season.people at) ≡ Some result }
    {
        self.left[at]
    }

    /// The last choice of the candidate at this position in the open window.
    fn last_choice(&self, at: usize) -> Option<Choice>
        requires { at < length self.now.season.people }
        ensures { option_map (λ person. last_choice (choices_in self.now.state self.now.state.now
            person.id.0)) (slice_get self.now.season.people at) ≡ Some result }
    {
        match self.table(self.window) {
            Some(table) => table.last(at),
            None => None,
        }
    }

    /// Returns the standing now of the candidate at this position.
    pub(crate) fn standing(&self, at: usize) -> Standing
        requires { at < length self.now.season.people }
        ensures { option_map (λ person. standing_at self.now.season
            (view_of self.now.state person.id.0) person.id.0 self.now.state.now)
            (slice_get self.now.season.people at) ≡ Some result }
    {
        match self.last_choice(at) {
            Some(choice) => standing_of(choice),
            None => self.standing_at_cut(at),
        }
    }

    /// The seat of the candidate at this position in the last published round.
    pub(crate) fn last_seat(&self, at: usize) -> Option<Seat>
        requires { at < length self.now.season.people }
        ensures { option_map (λ person. last_seat self.now.season self.now.state.rounds person.id.0)
            (slice_get self.now.season.people at) ≡ Some result }
    {
        match self.rounds.last() {
            Some(round) => round.seats.as_slice()[at],
            None => None,
        }
    }
}

/// Puts the turns of the candidate at this position at the end of these rows, in their order.
fn push_turns(
    rows: &mut AnswerRows,
    table: &AnswerTable,
    at: usize,
    cand: CandId,
    window: u16,
) -> Result<(), OutOfMemory>
    requires { at < length table.now }
    ensures { OnOk result ((choices : List Choice) → slice_get table.now at ≡ Some choices
        → rows.new ≡ rows.old ++ rows_after window cand 0 choices) }
{
    for before in 0..table.taken(at) {
        let turn = before + 1;
        if let Some(choice) = table.choice(at, turn) {
            rows.push(AnswerRow {
                window,
                cand,
                turn,
                choice,
            })?;
        }
    }
    Ok(())
}
