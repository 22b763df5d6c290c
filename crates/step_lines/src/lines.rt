// The lines of one step.
ghost use Rattle.std.specs.Prelude.{◌≡◌, ◌<◌, ◌++◌, OnOk, OnErr, length};
ghost use Rattle.std.specs.Fmt.{decimal};
ghost use Rattle.std.specs.List.{AllByRecursion};
ghost use Rattle.office_base.specs.Certificate.{slot_of};
ghost use Rattle.step_lines.specs.Lines.{count_lines, slot_letter, step_lines};

use itoa::Buffer;
use office_base::{CandId, OutOfMemory, Pair, Person, Text};
use office_text::{letter_of, push_number};

/// Puts the digits of a count at the end. Where there is no memory for them, the text is as before.
pub fn push_count(out: &mut Text, count: usize) -> Result<(), OutOfMemory>
    ensures ok { OnOk result (out.new ≡ out.old ++ decimal count) }
    ensures err { OnErr result (out.new ≡ out.old) }
{
    let mut buffer = Buffer::new();
    out.extend_from_slice(buffer.format(count).as_bytes())
}

/// Appends the lines of one step after its name: its seats, the number of people who competed for them, how many were
/// admitted and how many protections they fill, and then a line for each person admitted. If memory runs out, some
/// beginning of these lines may be at the end.
pub fn push_step_lines(
    out: &mut Text,
    seats: u32,
    candidates: usize,
    admitted: &[Person],
    pairs: &[Pair],
) -> Result<(), OutOfMemory>
    requires { AllByRecursion (λ pair. pair.slot < 6) pairs.now }
    ensures { OnOk result
        (out.new ≡ out.old ++ step_lines seats candidates admitted.now pairs.now) }
{
    push_counts(out, seats, candidates, admitted.len(), pairs.len())?;
    for person in admitted {
        push_number(out, person.id.0)?;
        out.extend_from_slice(&[b' ', slot_letter(pairs, person.id), b'\n'])?;
    }
    Ok(())
}

/// Puts the numbers of a step.
fn push_counts(
    out: &mut Text,
    seats: u32,
    candidates: usize,
    admitted: usize,
    honoured: usize,
) -> Result<(), OutOfMemory>
    ensures { OnOk result (out.new ≡ out.old ++ count_lines seats candidates admitted honoured) }
{
    out.extend_from_slice(b" seats ")?;
    push_number(out, seats)?;
    out.extend_from_slice(b" candidates ")?;
    push_count(out, candidates)?;
    out.extend_from_slice(b" admitted ")?;
    push_count(out, admitted)?;
    out.extend_from_slice(b"\nhonoured ")?;
    push_count(out, honoured)?;
    out.extend_from_slice(b"\n")
}

/// Returns the letter of the slot of a candidate, or a dash if the candidate is in no pair.
fn slot_letter(pairs: &[Pair], cand: CandId) -> u8
    requires { AllByRecursion (λ pair. pair.slot < 6) pairs.now }
    ensures { result ≡ slot_letter (slot_of pairs.now cand) }
{
    for pair in pairs {
        if pair.cand == cand {
            return letter_of(pair.slot);
        }
    }
    b'-'
}
