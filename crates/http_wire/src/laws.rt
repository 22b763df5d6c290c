// What holds of the messages of a connection and of the bytes of replies.
ghost use Rattle.std.specs.Prelude.{ℕ, ◌<◌, List, length, ◌≡◌, map};
ghost use Rattle.http_wire.specs.Limits.{most_message_bytes};
ghost use Rattle.http_wire.specs.Laws.{AreHeads, HasOneAnswer, IsNoneOrTorn, IsSettled};
ghost use Rattle.http_wire.specs.Messages.{IsUnfinished};
ghost use Rattle.http_wire.specs.Statuses.{phrase, phrases};

/// A head is some empty lines, then one or more lines none of which is empty, then an empty line, and no shorter prefix is.
pub fn head_is_its_lines()
    ensures { AreHeads }
{}

/// Bytes are a whole message, or refused, or unfinished, in one way.
pub fn bytes_come_to_one_answer()
    ensures { (bytes : List ℕ) → HasOneAnswer bytes }
{}

/// The answer to a stream does not depend on how it was cut: what settles some of its bytes settles all of them.
pub fn the_cut_does_not_matter()
    ensures { (bytes more : List ℕ) → IsSettled bytes more }
{}

/// Bytes to which more is wanted are fewer than a head and a body may have.
pub fn unfinished_bytes_are_few()
    ensures { (bytes : List ℕ) → IsUnfinished bytes → length bytes < most_message_bytes }
{}

/// Where input ends and more is wanted, it ends between messages, with no byte left, or inside one, which is torn.
pub fn unfinished_bytes_are_none_or_torn()
    ensures { (bytes : List ℕ) → IsNoneOrTorn bytes }
{}

/// Each status of the table has the phrase next to it in the table.
pub fn phrases_are_these()
    ensures { map (λ row. phrase row.0) phrases ≡ map (λ row. row.1) phrases }
{}
