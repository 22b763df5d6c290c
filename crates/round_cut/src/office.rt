// An office: the proceedings of its season, and the keeper that keeps their records.
ghost use Rattle.std.specs.Prelude.{◌≡◌, ◌≤◌, [], true, false, None, Some, IfOk, IfErr, OnOk, OnErr, IsErrOf, IsTrue, MatchOption, length, option_copied};
ghost use Rattle.office_asks.specs.declared.ask.By.TheVariants.{Nobody};
ghost use Rattle.season_file.specs.Season.{IsSeason};
ghost use Rattle.kept_rows.specs.Tables.{AreTold, IsFound, IsTold, still};
ghost use Rattle.office_moves.specs.History.{IsHistory};
ghost use Rattle.office_moves.specs.Raised.{matrix_at};
ghost use Rattle.season_facts.specs.Season.{facts_of};
ghost use Rattle.office_moves.specs.Stands.{Stand};
ghost use Rattle.office_moves.specs.State.{opening, round_at};
ghost use Rattle.proceedings.specs.Proceeding.{last_of, still_of};
ghost use Rattle.keeper_mem.specs.Keeper.{Blames};
ghost use Rattle.round_cut.specs.Answering.{KeepsOn};
ghost use Rattle.round_cut.specs.Office.{Begins, HasRoom, office_over, who_by};

use crate::fault::{BeginFault, OfficeFault};
use keeper_mem::Keeper;
use kept_rows::AllotRow;
use office_asks::By;
use office_base::Booked;
use office_moves::Entry;
use proceedings::Proceedings;
use rounds::Round;
use season_file::Season;
use seat_matrix::Matrix;
use std::alloc::Global;
use std::marker::Model;

/// An office over a keeper. The tables of the keeper, if they are visible, represent its state.
pub struct Office<K: Keeper> {
    pub(crate) book: Proceedings,
    pub(crate) keeper: K,
}

impl<K: Keeper> Model for Office<K> {
    ghost use Rattle.std.specs.Prelude.{◌≡◌, ◌≤◌, true};
    ghost use Rattle.office_moves.specs.Stands.{Stand};
    ghost use Rattle.round_cut.specs.Office.{HasRoom, OfficeView};

    ghost Value = { OfficeView K };

    ghost view = { λ a. record { season = a.book.season; entries = a.book.entries; state = a.book.state; still = a.book.still; keeper = a.keeper } };

    ghost invariant = { λ a. Stand a.book.season a.book.state (K.seen a.keeper).tables × HasRoom (K.seen a.keeper).holds_room a.book.still (K.seen a.keeper).spare };
}

/// Checks that no season is kept, and returns a fault if one is.
fn expect_empty<K: Keeper>(keeper: &mut K) -> Result<(), BeginFault>
    ensures ok { OnOk result (IsFound false (K.seen keeper.new).tables) }
    ensures not_empty { IsErrOf result BeginFault.NotEmpty
        → IsFound true (K.seen keeper.new).tables }
    ensures told { AreTold (K.seen keeper.old).tables (K.seen keeper.new).tables }
    ensures blamed { Blames (IsErrOf result BeginFault.KeeperFault)
        (K.seen keeper.old) (K.seen keeper.new) }
{
    if keeper.has_season()? {
        return Err(BeginFault::NotEmpty);
    }
    Ok(())
}

/// Takes room for the answers of all who are still in, and keeps the season.
#[tactic(auto, using(crate::proofs::Standing::was_told, crate::proofs::Standing::season_was))]
fn keep_season<K: Keeper>(book: &Proceedings, keeper: &mut K) -> Result<(), BeginFault>
    requires { IsFound false (K.seen keeper.old).tables }
    ensures told_before { OnOk result (IsTold (K.seen keeper.new).tables
        → IsTold (K.seen keeper.old).tables) }
    ensures stands { OnOk result (Stand book.now.season opening (K.seen keeper.new).tables) }
    ensures spare { OnOk result
        (HasRoom (K.seen keeper.new).holds_room book.now.still (K.seen keeper.new).spare) }
    ensures err { OnErr result (AreTold (K.seen keeper.old).tables (K.seen keeper.new).tables) }
    ensures kind { IsErrOf result BeginFault.NotEmpty → ⊥ }
    ensures blamed { Blames (IsErrOf result BeginFault.KeeperFault)
        (K.seen keeper.old) (K.seen keeper.new) }
{
    keeper.reserve_answers(book.still_in())?;
    keeper.put_season(book.season().text.as_slice())?;
    Ok(())
}

impl<K: Keeper> Office<K> {
    /// Begins an office over a keeper that holds no season, and keeps this one.
    /// The season's text must read as this season.
    /// After a fault it returns the keeper, with its tables unchanged.
    #[tactic(auto, using(crate::proofs::Standing::begun_empty))]
    pub fn begin(alloc: Global, season: Season, mut keeper: K) -> Result<Office<K>, (K, BeginFault)>
        requires { IsSeason season.text season }
        ensures ok { IfOk result (Begins K.seen (facts_of season) keeper) }
        ensures not_empty { IfErr result (λ e. e.1 ≡ BeginFault.NotEmpty
            → IsFound true (K.seen e.0).tables) }
        ensures err { IfErr result (λ e. AreTold (K.seen keeper).tables (K.seen e.0).tables) }
        ensures blamed_err { IfErr result (λ e.
            Blames (e.1 ≡ BeginFault.KeeperFault) (K.seen keeper) (K.seen e.0)) }
    {
        if let Err(fault) = expect_empty(&mut keeper) {
            return Err((keeper, fault));
        }
        let Ok(book) = Proceedings::begin(alloc, season) else {
            return Err((keeper, BeginFault::OutOfMemory));
        };
        if let Err(fault) = keep_season(&book, &mut keeper) {
            return Err((keeper, fault));
        }
        let _still = book.still_in();
        Ok(Office { book, keeper })
    }

    /// Returns an office over proceedings and the keeper of their records, with room for all who are still in.
    pub fn over(book: Proceedings, keeper: K) -> Office<K>
        requires { Stand book.season book.state (K.seen keeper).tables
            × HasRoom (K.seen keeper).holds_room book.still (K.seen keeper).spare }
        ensures { result ≡ office_over book keeper }
    {
        Office { book, keeper }
    }

    /// Returns the keeper. Its tables represent the last state.
    pub fn into_keeper(self) -> K
        ensures same { result ≡ self.keeper }
        ensures stands { Stand self.season self.state (K.seen result).tables }
    {
        let Office { book: _, keeper } = self;
        keeper
    }

    /// Returns the proceedings.
    pub fn book(&self) -> &Proceedings
        ensures season { result.now.season ≡ self.now.season }
        ensures state { (result.now.entries ≡ self.now.entries)
            × (result.now.state ≡ self.now.state) }
    {
        &self.book
    }

    /// Returns who a token is for. It allocates nothing.
    pub fn who(&self, token: Option<&[u8]>) -> By
        ensures { MatchOption token.entry (result ≡ Nobody) (λ bytes.
            result ≡ who_by self.now.season bytes.now) }
    {
        let Some(token) = token else {
            return By::Nobody;
        };
        let season = self.book.season();
        if token == season.clerk.bytes() {
            return By::Clerk;
        }
        match season.register.who(token) {
            Some(cand) => By::Candidate(cand),
            None => By::Nobody,
        }
    }

    /// Returns how many cuts were made, which is the number of the open window.
    /// After the last cut no window is open, and it is the number of rounds plus 1.
    pub fn now(&self) -> u16
        ensures { result ≡ self.now.state.now }
    {
        self.book.now()
    }

    /// Returns how many rounds are published.
    pub fn published(&self) -> u16
        ensures { result ≡ length self.now.state.rounds }
    {
        self.book.published()
    }

    /// Returns the published round of this number, from 1,
    /// and None if and only if the number is 0 or above `published`.
    pub fn round(&self, number: u16) -> Option<&Round>
        ensures { option_copied result ≡ round_at self.now.state.rounds number }
    {
        self.book.round(number)
    }

    /// Returns the final admissions, once the last cut was made.
    pub fn finals(&self) -> Option<&[AllotRow]>
        ensures { MatchOption result (self.now.state.finals ≡ None)
            (λ rows. self.now.state.finals ≡ Some rows.now) }
    {
        match self.book.finals() {
            Some(rows) => Some(rows.as_slice()),
            None => None,
        }
    }

    /// Returns what was accepted, in its order: a history of the season, which leads to the state.
    pub fn entries(&self) -> &[Entry]
        ensures same { result.now ≡ self.now.entries }
        ensures history { IsHistory self.now.season self.now.entries self.now.state }
    {
        self.book.entries()
    }

    /// Returns the season.
    pub fn season(&self) -> &Season
        ensures { facts_of result.now ≡ self.now.season }
    {
        self.book.season()
    }

    /// Returns the matrix with all raises so far, by which the next round is made.
    pub fn matrix(&self) -> &Matrix
        ensures same { result.now ≡ matrix_at self.now.season self.now.state }
        ensures programmes { (matrix_at self.now.season self.now.state).programmes
            ≡ self.now.season.matrix.programmes }
    {
        self.book.matrix()
    }

    /// Returns whether everything that was accepted is kept: a crash takes none of it back.
    pub fn is_settled(&self) -> bool
        ensures is { result ≡ (K.seen self.now.keeper).settled }
        ensures stands { IsTrue result
            → Stand self.now.season self.now.state (K.seen self.now.keeper).kept }
    {
        self.keeper.is_settled()
    }

    /// Keeps all that was accepted and waits to be kept. After a fault it waits as before,
    /// and whether a crash takes it back is open.
    pub fn settle(&mut self) -> Result<(), OfficeFault>
        ensures settled { OnOk result ((K.seen self.new.keeper).settled ≡ true) }
        ensures kept { KeepsOn K.seen self.old self.new result }
        ensures state { (self.new.entries ≡ self.old.entries) × (self.new.state ≡ self.old.state) }
        ensures told { AreTold (K.seen self.old.keeper).tables (K.seen self.new.keeper).tables }
    {
        self.keeper.settle()?;
        Ok(())
    }

    /// Returns the number of the last entry, or 0 if there is none.
    pub fn last_number(&self) -> u64
        ensures { result ≡ last_of self.now.entries }
    {
        self.book.last_number()
    }
}

/// An office is a book of what it accepted. Its basis is its season, and whether its keeper holds room in advance.
/// It counts the faults of the keeper.
impl<K: Keeper> Booked for Office<K> {
    type Item = Entry;

    ghost use Rattle.std.specs.Prelude.{Bool};
    ghost use Rattle.office_moves.specs.Facts.{SeasonFacts};

    ghost Basis = { SeasonFacts × Bool };

    ghost basis = { λ office. (office.season, (K.seen office.keeper).holds_room) };

    ghost entries = { λ office. office.entries };

    ghost number = { λ entry. entry.number };

    ghost count = { λ office. (K.seen office.keeper).faults };

    fn last_number(&self) -> u64 {
        let _entries = self.book.entries();
        self.book.last_number()
    }
}
