// What changes the proceedings.
ghost use Rattle.std.specs.Prelude.{◌≡◌, ◌≤◌, ◌<◌, ◌+◌, ◌∷◌, ◌++◌, [], ◌⊎◌, IfOk, OnOk, length};
ghost use Rattle.office_base.specs.declared.choice.Choice.{Choice as AnyChoice};
ghost use Rattle.office_moves.specs.Decided.{decided};
ghost use Rattle.office_moves.specs.History.{asked};
ghost use Rattle.office_moves.specs.Moves.{IsNextRound, final_rows};
ghost use Rattle.season_facts.specs.Season.{facts_of};
ghost use Rattle.office_moves.specs.State.{opening, with_finals, with_raise, with_round, with_row};
ghost use Rattle.answer_table.specs.Turns.{no_turns};
ghost use Rattle.proceedings.specs.Changes.{IsAnswerAt, StillAfter};

use crate::book::Proceedings;
use answer_table::AnswerTable;
use cut_arrays::leave_all;
use kept_rows::{AllotRows, AnswerRow, RaiseRow};
use office_base::{Choice, OutOfMemory};
use office_moves::{Act, Decision, Entry};
use raised_seats::RaisedSeats;
use round_options::Standing;
use rounds::Round;
use season_facts::says_what_is_sound;
use season_file::Season;
use std::alloc::Global;

/// Returns how many are still in after a choice of one of them.
fn still_after(still: u32, choice: Choice) -> u32
    requires { 1 ≤ still }
    ensures { StillAfter choice still result }
{
    match choice {
        Choice::Withdraw => still - 1,
        Choice::Freeze | Choice::Float | Choice::Slide => still,
    }
}

impl Proceedings {
    ghost use Rattle.proceedings.specs.Proceeding.{last_of};

    /// Begins the proceedings of a season, before its first request. There is room for an entry of each candidate, and for all rounds.
    pub fn begin(alloc: Global, season: Season) -> Result<Proceedings, OutOfMemory>
        ensures season { IfOk result (λ book. book.season ≡ facts_of season) }
        ensures entries { IfOk result (λ book. book.entries ≡ []) }
        ensures state { IfOk result (λ book. book.state ≡ opening) }
        ensures still { IfOk result (λ book. book.still ≡ length (facts_of season).people) }
    {
        says_what_is_sound(&season);
        history_laws::laws::orderly();
        let count = season.register.people().len();
        let matrix = season.matrix.copy(alloc)?;
        let left = vec![in alloc; Standing::Waiting; count]?;
        let first = AnswerTable::new(alloc, count)?;
        let mut turns = Vec::with_capacity(alloc, usize::from(season.rounds) + 1)?;
        turns.push(first)?;
        let rounds = Vec::with_capacity(alloc, usize::from(season.rounds))?;
        let entries = Vec::with_capacity(alloc, count)?;
        Ok(Proceedings {
            season,
            raised: RaisedSeats::new(alloc, matrix),
            rounds,
            finals: None,
            left,
            turns,
            entries,
            window: 0,
            still_in: count as u32,
        })
    }

    /// Takes room for `n` entries more, and for a raise. When memory runs out, all is unchanged, and there is no less room.
    pub fn reserve(&mut self, n: u32) -> Result<(), OutOfMemory>
        ensures season { self.new.season ≡ self.old.season }
        ensures entries { self.new.entries ≡ self.old.entries }
        ensures state { self.new.state ≡ self.old.state }
        ensures still { self.new.still ≡ self.old.still }
        ensures more { self.old.room ≤ self.new.room }
        ensures more_raises { self.old.raise_room ≤ self.new.raise_room }
        ensures room { OnOk result (n ≤ self.new.room) }
        ensures raise_room { OnOk result (1 ≤ self.new.raise_room) }
    {
        self.entries.reserve(n as usize)?;
        self.raised.reserve()?;
        Ok(())
    }

    /// Takes an answer of the candidate at this position of the register, as entry of this number. It takes no memory.
    pub fn note(&mut self, number: u64, at: u32, row: AnswerRow)
        requires decided { IsAnswerAt self.old.season self.old.state row at }
        requires number { last_of self.old.entries < number }
        requires space { (self.old.still < self.old.room) ⊎ (row.choice ≡ Choice.Withdraw) }
        ensures state { self.new.state ≡ with_row self.old.state row }
        ensures entries { self.new.entries
            ≡ self.old.entries ++ record { number = number; act = Act.Answer row } ∷ [] }
        ensures season { self.new.season ≡ self.old.season }
        ensures room { self.old.room ≤ self.new.room + 1 }
        ensures still { StillAfter row.choice self.old.still self.new.still }
    {
        history_laws::laws::history_grows();
        history_laws::laws::orderly();
        let still = still_after(self.still_in, row.choice);
        self.turns[usize::from(row.window)].put(at as usize, row.choice);
        self.still_in = still;
        let act = Act::Answer(row);
        self.entries.push_reserved(Entry { number, act });
    }

    /// Takes the cut of the open window, which publishes this round, as entry of this number. Opens the next window with this table.
    /// It takes no memory.
    pub fn publish(&mut self, number: u64, round: Round, table: AnswerTable)
        requires decided { decided self.old.season self.old.state
            (asked self.old.season (Act.Cut self.old.state.now)) ≡ Decision.Publish }
        requires next { IsNextRound self.old.season self.old.state round }
        requires table { table ≡ no_turns (length self.old.season.people) }
        requires number { last_of self.old.entries < number }
        requires space { self.old.still < self.old.room }
        ensures state { self.new.state ≡ with_round self.old.state round }
        ensures entries { self.new.entries ≡ self.old.entries
            ++ record { number = number; act = Act.Cut self.old.state.now } ∷ [] }
        ensures season { self.new.season ≡ self.old.season }
        ensures still { self.new.still ≤ self.old.still }
        ensures room { self.old.room ≤ self.new.room + 1 }
    {
        history_laws::laws::history_grows();
        history_laws::laws::orderly();
        let window = self.window;
        let seats = Some(round.seats.as_slice());
        let still = leave_all(
            self.left.as_mut_slice(),
            &self.turns[usize::from(window)],
            seats,
        );
        self.rounds.push_reserved(round);
        self.turns.push_reserved(table);
        let act = Act::Cut { window };
        self.entries.push_reserved(Entry { number, act });
        self.still_in = still;
        self.window += 1;
    }

    /// Takes the last cut, with these final rows, as entry of this number. It takes no memory.
    pub fn finish(&mut self, number: u64, rows: AllotRows)
        requires decided { decided self.old.season self.old.state
            (asked self.old.season (Act.Cut self.old.state.now)) ≡ Decision.Finish }
        requires rows { rows ≡ final_rows self.old.season self.old.state }
        requires number { last_of self.old.entries < number }
        requires space { self.old.still < self.old.room }
        ensures state { self.new.state ≡ with_finals self.old.state rows }
        ensures entries { self.new.entries ≡ self.old.entries
            ++ record { number = number; act = Act.Cut self.old.state.now } ∷ [] }
        ensures season { self.new.season ≡ self.old.season }
        ensures still { self.new.still ≤ self.old.still }
        ensures room { self.old.room ≤ self.new.room + 1 }
    {
        history_laws::laws::history_grows();
        history_laws::laws::orderly();
        let window = self.window;
        let still = leave_all(
            self.left.as_mut_slice(),
            &self.turns[usize::from(window)],
            None,
        );
        self.finals = Some(rows);
        let act = Act::Cut { window };
        self.entries.push_reserved(Entry { number, act });
        self.still_in = still;
        self.window += 1;
    }

    /// Takes a raise, as entry of this number. It takes no memory.
    pub fn lift(&mut self, number: u64, row: RaiseRow)
        requires decided { decided self.old.season self.old.state
            (asked self.old.season (Act.Raise row)) ≡ Decision.Lift row }
        requires number { last_of self.old.entries < number }
        requires space { self.old.still < self.old.room }
        requires raise_space { 1 ≤ self.old.raise_room }
        ensures state { self.new.state ≡ with_raise self.old.state row }
        ensures entries { self.new.entries
            ≡ self.old.entries ++ record { number = number; act = Act.Raise row } ∷ [] }
        ensures season { self.new.season ≡ self.old.season }
        ensures still { self.new.still ≡ self.old.still }
        ensures room { self.old.room ≤ self.new.room + 1 }
    {
        history_laws::laws::history_grows();
        history_laws::laws::orderly();
        self.raised.raise(row);
        let act = Act::Raise(row);
        self.entries.push_reserved(Entry { number, act });
    }
}
