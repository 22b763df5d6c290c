// The proceedings as arrays.
ghost use Rattle.std.specs.Prelude.{◌≡◌, ◌≤◌, ◌+◌, length};
ghost use Rattle.history_laws.specs.Orderly.{IsOrderly};
ghost use Rattle.office_moves.specs.History.{IsHistory};
ghost use Rattle.office_moves.specs.Raised.{matrix_at};
ghost use Rattle.season_facts.specs.Season.{facts_of};
ghost use Rattle.office_moves.specs.State.{round_at};

use answer_table::AnswerTable;
use kept_rows::AllotRows;
use office_moves::Entry;
use raised_seats::RaisedSeats;
use round_options::Standing;
use rounds::Round;
use season_file::Season;
use seat_matrix::Matrix;
use std::marker::Model;

/// The proceedings of a season. The arrays along the register are indexed by a candidate's position there.
#[derive(Drop)]
pub struct Proceedings {
    pub(crate) season: Season,
    /// The matrix with all raises so far, and these raises.
    pub(crate) raised: RaisedSeats,
    /// The published rounds.
    pub(crate) rounds: Vec<Round>,
    /// The final admissions, once the last cut was made.
    pub(crate) finals: Option<AllotRows>,
    /// How the last cut left each candidate.
    pub(crate) left: Vec<Standing>,
    /// The turns of each candidate, by windows.
    pub(crate) turns: Vec<AnswerTable>,
    pub(crate) entries: Vec<Entry>,
    /// The window that is open, which is how many cuts were made.
    pub(crate) window: u16,
    /// How many are neither withdrawn nor no-shows.
    pub(crate) still_in: u32,
}

impl Model for Proceedings {
    ghost use Rattle.proceedings.specs.Proceeding.{Proceeding};

    ghost Value = { Proceeding };

    ghost use Rattle.proceedings.specs.Kept.{proceeding_of, IsKept};

    ghost view = { proceeding_of };

    ghost invariant = { IsKept };
}

impl Proceedings {
    ghost use Rattle.std.specs.Prelude.{option_copied};
    ghost use Rattle.proceedings.specs.Proceeding.{last_of, still_of};

    /// Returns the season.
    pub fn season(&self) -> &Season
        ensures { facts_of result.now ≡ self.now.season }
    {
        &self.season
    }

    /// Returns how many cuts were made, which is the number of the open window. After the last cut no window is open, and it is
    /// the number of rounds plus 1.
    pub fn now(&self) -> u16
        ensures now { result ≡ self.now.state.now }
        ensures end { self.now.state.now ≤ self.now.season.rounds + 1 }
    {
        self.window
    }

    /// Returns how many rounds are published.
    pub fn published(&self) -> u16
        ensures { result ≡ length self.now.state.rounds }
    {
        self.rounds.len() as u16
    }

    /// Returns the round of this number, from 1. None if and only if no round of this number is published.
    pub fn round(&self, number: u16) -> Option<&Round>
        ensures { option_copied result ≡ round_at self.now.state.rounds number }
    {
        if number == 0 {
            return None;
        }
        self.rounds.get(usize::from(number - 1))
    }

    /// Returns the final admissions, once the last cut was made.
    pub fn finals(&self) -> Option<&AllotRows>
        ensures { option_copied result ≡ self.now.state.finals }
    {
        self.finals.as_ref()
    }

    /// Returns all that was accepted, in its order.
    pub fn entries(&self) -> &[Entry]
        ensures same { result.now ≡ self.now.entries }
        ensures history { IsHistory self.now.season self.now.entries self.now.state }
        ensures orderly { IsOrderly self.now.season self.now.state }
    {
        self.entries.as_slice()
    }

    /// Returns the number of the last entry, 0 if there is none.
    pub fn last_number(&self) -> u64
        ensures { result ≡ last_of self.now.entries }
    {
        match self.entries.last() {
            Some(entry) => entry.number,
            None => 0,
        }
    }

    /// Returns how many candidates are neither withdrawn nor no-shows. For each of them an entry can be put in without memory.
    pub fn still_in(&self) -> u32
        ensures still { result ≡ self.now.still }
        ensures count { self.now.still ≡ still_of self.now.season self.now.state }
        ensures room { self.now.still ≤ self.now.room }
    {
        self.still_in
    }

    /// Returns the matrix with all raises so far, by which the next round is made.
    pub fn matrix(&self) -> &Matrix
        ensures same { result.now ≡ matrix_at self.now.season self.now.state }
        ensures programmes { (matrix_at self.now.season self.now.state).programmes
            ≡ self.now.season.matrix.programmes }
    {
        self.raised.matrix()
    }

    /// Hands the season back.
    pub fn into_season(self) -> Season
        ensures { facts_of result ≡ self.season }
    {
        let Proceedings { season, .. } = self;
        season
    }
}
