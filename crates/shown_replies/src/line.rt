// The text of a reply of an office.
ghost use Rattle.std.specs.Prelude.{◌≡◌, IfOk, option_copied};
ghost use Rattle.shown_replies.specs.Shown.{CanBeShown, reply_bytes, round_shown, rows_shown};

use kept_rows::AllotRow;
use office_base::{OutOfMemory, Text};
use office_moves::Reply;
use proceedings::Proceedings;
use reply_texts::reply_text;
use rounds::Round;
use std::alloc::Global;

/// Returns the text of a reply that can be shown in the state of the proceedings: its programmes are of the matrix.
/// The round that it shows is there, and the programmes of the final rows are of the matrix too.
/// The text of a cut shows what the cut published.
#[tactic(auto, unfolding(crate::specs::Shown::reply_bytes, crate::specs::Shown::CanBeShown))]
pub fn reply_line(alloc: Global, book: &Proceedings, reply: &Reply) -> Result<Text, OutOfMemory>
    requires { CanBeShown book.now.season book.now.state reply.now }
    ensures { IfOk result (λ text.
        text ≡ reply_bytes book.now.season book.now.state reply.now) }
{
    let season = book.season();
    let round = shown_round(book, reply);
    let rows = shown_rows(book);
    reply_text(
        alloc,
        &season.matrix,
        season.register.people(),
        round,
        rows,
        reply,
    )
}

/// Returns the round that the text of a reply shows: the one that its cut published, or that was asked for. It takes no memory.
pub fn shown_round<'a>(book: &'a Proceedings, reply: &Reply) -> Option<&'a Round>
    ensures { option_copied result ≡ round_shown book.now.state reply.now }
{
    match reply {
        Reply::Published { round, .. } | Reply::RoundIs { round } => book.round(*round),
        _ => None,
    }
}

/// Returns the final rows, once there are any, and otherwise none. It takes no memory.
pub fn shown_rows(book: &Proceedings) -> &[AllotRow]
    ensures { result.now ≡ rows_shown book.now.state }
{
    match book.finals() {
        Some(rows) => rows.as_slice(),
        None => &[],
    }
}
