// The cut of the open window.
ghost use Rattle.std.specs.Prelude.{◌≡◌, ◌∷◌, [], IfErr, OnOk};
ghost use Rattle.office_moves.specs.declared.moves.Act.TheVariants.{Cut};
ghost use Rattle.replays.specs.Counted.{Follow};
ghost use Rattle.replays.specs.Replay.{CutPasses};
ghost use Rattle.replays.specs.Steps.{IsRefusedCut};

use crate::fault::ReplayFault;
use crate::rows::next_entry;
use proceedings::Proceedings;
use round_cut::next_round;
use std::alloc::Global;

/// The cut of the open window publishes the next round, or gives the final rows. There is none after the last one.
pub(crate) fn replay_cut(alloc: Global, book: &mut Proceedings) -> Result<(), ReplayFault>
    ensures passes { OnOk result (CutPasses book.old.season book.old.state book.new.state) }
    ensures season { book.new.season ≡ book.old.season }
    ensures entries { OnOk result
        (Follow (Cut book.old.state.now ∷ []) book.old.entries book.new.entries) }
    ensures fault { IfErr result (λ fault. IsRefusedCut book.old.season book.old.state fault) }
{
    let number = next_entry(book)?;
    let window = book.now();
    let rounds = book.season().rounds;
    if window > rounds {
        return Err(ReplayFault::Stray { row: 0 });
    }
    if window < rounds {
        let round = next_round(alloc, book)?;
        let table = book.next_table(alloc)?;
        book.publish(number, round, table);
        return Ok(());
    }
    let rows = book.final_rows(alloc)?;
    book.finish(number, rows);
    Ok(())
}
