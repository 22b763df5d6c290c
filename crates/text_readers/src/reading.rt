// The reader of any text: line by line, up to the first line with which no text begins.
ghost use Rattle.std.specs.Prelude.{◌≡◌, ◌<◌, ◌≤◌, ◌-◌, ◌^◌, [], ℕ, List, IfOk, IfErr, OnOk, IsTrue, ◌↔◌, length};
ghost use Rattle.text_readers.specs.Reading.{Begins, EndsWithLines, Grammar, HasNo, IsAnswered, IsTextFault, IsWhole};

use crate::fault::TextFault;
use crate::parts::split_at_byte;
use office_base::OutOfMemory;

/// Holds what was read of a text, one line after another.
pub trait LineReader {
    /// What a text says.
    ghost Value: { Type 0 };

    /// Which bytes complete the text from here on, and what the whole text then says.
    ghost grammar: { Self → Grammar Value };

    /// What was read so far.
    ghost value: { Self → Value };

    /// A number above that of the lines to come.
    ghost left: { Self → ℕ };

    /// What it keeps.
    ghost keeps: { Self → Type 0 };

    /// Takes a whole line, without its LF, if it can be here, or says that it cannot. Then the reader is of no use
    /// any more, and neither is it when memory runs out.
    fn take(&mut self, line: &[u8]) -> Result<bool, OutOfMemory>
        requires keeps { keeps self.old }
        requires line { HasNo 10 line.now }
        ensures answered { IfOk result (λ taken.
            IsAnswered (grammar self.old) (grammar self.new) line.now taken) }
        ensures keeps { IfOk result (λ taken. IsTrue taken → keeps self.new) }
        ensures left { IfOk result (λ taken. IsTrue taken → left self.new < left self.old) };

    /// Returns whether the piece begins a line that can be here.
    fn begins(&self, piece: &[u8]) -> bool
        requires keeps { keeps self.now }
        requires line { HasNo 10 piece.now }
        requires some { 0 < length piece.now }
        ensures value { IsTrue result ↔ Begins (grammar self.now) piece.now }
        ensures ends { EndsWithLines (grammar self.now) piece.now };

    /// Returns whether the text may end here.
    fn is_whole(&self) -> bool
        requires keeps { keeps self.now }
        ensures { IsWhole (grammar self.now) (value self.now) result };
}

/// Reads a text into a reader at its beginning, or returns the line of its fault. After a fault the reader is of no
/// use any more.
pub fn read_lines<L: LineReader>(lines: &mut L, text: &[u8]) -> Result<(), TextFault>
    requires keeps { L.keeps lines.old }
    requires some { Begins (L.grammar lines.old) [] }
    requires few { L.left lines.old < 2 ^ 32 - 2 }
    ensures value { OnOk result (L.grammar lines.old text.now (L.value lines.new)) }
    ensures fault { IfErr result (λ fault. IsTextFault (L.grammar lines.old) text.now fault) }
{
    let mut rest = text;
    let mut number: u32 = 1;
    while let Some((line, later)) = split_at_byte(rest, b'\n') {
        if !lines.take(line)? {
            return Err(TextFault::Line(number));
        }
        rest = later;
        number += 1;
    }
    if rest.is_empty() {
        if lines.is_whole() {
            Ok(())
        } else {
            Err(TextFault::Line(number))
        }
    } else if lines.begins(rest) {
        Err(TextFault::Line(number + 1))
    } else {
        Err(TextFault::Line(number))
    }
}
