// What a change needs, made before anything is kept.
ghost use Rattle.std.specs.Prelude.{◌≡◌, ◌<◌, ◌+◌, IfOk, length};
ghost use Rattle.office_moves.specs.Moves.{IsNextRound, allot_rows};
ghost use Rattle.answer_table.specs.Turns.{no_turns};
ghost use Rattle.rounds.specs.Round.{seated};

use crate::next::next_round;
use answer_table::AnswerTable;
use kept_rows::AllotRows;
use office_base::OutOfMemory;
use proceedings::Proceedings;
use rounds::Round;
use std::alloc::Global;

/// All that a cut needs which publishes a round.
#[derive(Drop)]
pub(crate) struct MadeCut {
    pub(crate) round: Round,
    pub(crate) rows: AllotRows,
    pub(crate) table: AnswerTable,
    /// How many have a seat in the round.
    pub(crate) seated: u32,
}

/// Makes the next round, its rows, and the table of the window that it opens.
pub(crate) fn make_cut(alloc: Global, book: &Proceedings) -> Result<MadeCut, OutOfMemory>
    requires { book.now.state.now < book.now.season.rounds }
    ensures round { IfOk result (λ made. IsNextRound book.now.season book.now.state made.round) }
    ensures rows { IfOk result (λ made. made.rows ≡ allot_rows book.now.season made.round) }
    ensures table { IfOk result (λ made. made.table ≡ no_turns (length book.now.season.people)) }
    ensures seated { IfOk result (λ made. made.seated ≡ seated made.round.seats) }
{
    let round = next_round(alloc, book)?;
    let rows = book.allot_rows(alloc, &round)?;
    let table = book.next_table(alloc)?;
    let _people = book.season().register.people();
    let seated = round.seated() as u32;
    Ok(MadeCut {
        round,
        rows,
        table,
        seated,
    })
}

/// Returns how many entries there must be room for: one, and the withdrawals of all who are still in.
pub(crate) fn room_wanted(book: &Proceedings) -> u32
    ensures { result ≡ book.now.still + 1 }
{
    let _people = book.season().register.people();
    book.still_in() + 1
}
