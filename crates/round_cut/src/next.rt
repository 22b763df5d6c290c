// The next round of a season.
ghost use Rattle.std.specs.Prelude.{◌<◌, IfOk};
ghost use Rattle.office_moves.specs.Moves.{IsNextRound};

use apply_engine::{Round, plain_round_with};
use office_base::OutOfMemory;
use proceedings::Proceedings;
use std::alloc::Global;

/// The round that the next cut publishes, made from what the candidates seek after the cuts so far. The only error is want of memory.
pub fn next_round(alloc: Global, book: &Proceedings) -> Result<Round, OutOfMemory>
    requires { book.now.state.now < book.now.season.rounds }
    ensures { IfOk result (λ round. IsNextRound book.now.season book.now.state round) }
{
    let seeks = book.seeks(alloc)?;
    let guaranteed = book.guaranteed(alloc)?;
    let season = book.season();
    let number = book.now();
    if number >= season.rounds {
        unreachable!("there is a round left")
    }
    plain_round_with(alloc, season, book.matrix(), number + 1, seeks, &guaranteed)
}
