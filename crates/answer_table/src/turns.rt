// The choices of each candidate in one window.
ghost use Rattle.std.specs.Prelude.{◌≡◌, ◌<◌, ◌≤◌, ◌+◌, ◌++◌, ◌∷◌, [], Some, length, slice_get, slice_set, take, option_map, IfOk};
ghost use Rattle.answer_table.specs.Turns.{choices_of, IsTurns, digit_of, of_digit, four_of};

use office_base::{Choice, OutOfMemory};
use std::alloc::Global;
use std::marker::Model;

/// The choices of a candidate in one window, by turn from 1: the first `count` places, and filler after them. A byte has four places, its digits to
/// base 4 from the lowest. At most 16 turns are accepted, and one withdrawal.
#[derive(Clone, Copy)]
struct Turns {
    count: u8,
    packed: [u8; 5],
}

/// The choices of each person of the register in one window, in the order of the register.
#[derive(Drop)]
pub struct AnswerTable {
    slots: Vec<Turns>,
}

impl Model for AnswerTable {
    ghost use Rattle.std.specs.Prelude.{List, map, All};
    ghost use Rattle.office_base.specs.declared.choice.Choice.{Choice};
    ghost use Rattle.answer_table.specs.Turns.{choices_of, IsTurns};

    ghost Value = { List (List Choice) };

    ghost view = { λ a. map choices_of a.slots.items };

    ghost invariant = { λ a. All IsTurns a.slots.items };
}

impl AnswerTable {
    ghost use Rattle.std.specs.Prelude.{List};
    ghost use Rattle.office_base.specs.declared.choice.Choice.{Choice};
    ghost use Rattle.answer_table.specs.Turns.{choice_at, last_choice, no_turns};

    /// A table of this many candidates, who have taken no turn.
    pub fn new(alloc: Global, count: usize) -> Result<AnswerTable, OutOfMemory>
        ensures { IfOk result (λ table. table ≡ no_turns count) }
    {
        let mut slots = Vec::with_capacity(alloc, count)?;
        'slots: for _ in 0..count {
            slots.push(Turns {
                count: 0,
                packed: [0; 5],
            })?;
        }
        Ok(AnswerTable { slots })
    }

    /// How many turns the candidate at this place has taken, which is the last turn. It takes no memory.
    pub fn taken(&self, at: usize) -> u16
        requires { at < length self.now }
        ensures { option_map length (slice_get self.now at) ≡ Some result }
    {
        u16::from(self.slots[at].count)
    }

    /// The choice of the candidate at this place at a turn, from 1. None exactly where that turn was not taken. It takes no memory.
    pub fn choice(&self, at: usize, turn: u16) -> Option<Choice>
        requires { at < length self.now }
        ensures { option_map (λ choices. choice_at choices turn) (slice_get self.now at)
            ≡ Some result }
    {
        let slot = &self.slots[at];
        if turn == 0 || turn > u16::from(slot.count) {
            return None;
        }
        Some(choice_after(slot, usize::from(turn - 1)))
    }

    /// The choice of the last turn of the candidate at this place. None exactly where no turn was taken. It takes no memory.
    pub fn last(&self, at: usize) -> Option<Choice>
        requires { at < length self.now }
        ensures { option_map last_choice (slice_get self.now at) ≡ Some result }
    {
        let slot = &self.slots[at];
        if slot.count == 0 {
            return None;
        }
        Some(choice_after(slot, usize::from(slot.count - 1)))
    }

    /// One turn more of the candidate at this place. It takes no memory.
    pub fn put(&mut self, at: usize, choice: Choice)
        requires { (old : List Choice) × (slice_get self.old at ≡ Some old) × (length old < 17) }
        ensures { (old : List Choice) → slice_get self.old at ≡ Some old
            → self.new ≡ slice_set self.old at (old ++ choice ∷ []) }
    {
        let slot = &mut self.slots[at];
        let count = usize::from(slot.count);
        let byte = slot.packed[count / 4];
        slot.packed[count / 4] = with_choice(byte, count % 4, choice);
        slot.count += 1;
    }
}

/// The choice of the turn that follows this many.
fn choice_after(turns: &Turns, before: usize) -> Choice
    requires few { before < turns.now.count }
    requires kept { IsTurns turns.now }
    ensures { slice_get (choices_of turns.now) before ≡ Some result }
{
    choice_in(turns.packed[before / 4], before % 4)
}

/// The choice at a place of a byte, from 0.
fn choice_in(byte: u8, place: usize) -> Choice
    requires { place < 4 }
    ensures { slice_get (four_of byte) place ≡ Some result }
{
    let digit = match place {
        0 => byte % 4,
        1 => byte / 4 % 4,
        2 => byte / 16 % 4,
        _ => byte / 64 % 4,
    };
    choice_of(digit)
}

/// The byte with this choice at a place, from 0. What stood before that place stays.
fn with_choice(byte: u8, place: usize, choice: Choice) -> u8
    requires { place < 4 }
    ensures { take (place + 1) (four_of result) ≡ take place (four_of byte) ++ choice ∷ [] }
{
    let digit = digit_for(choice);
    match place {
        0 => digit,
        1 => byte % 4 + digit * 4,
        2 => byte % 16 + digit * 16,
        _ => byte % 64 + digit * 64,
    }
}

/// Returns the digit that represents a choice.
fn digit_for(choice: Choice) -> u8
    ensures { result ≡ digit_of choice }
{
    match choice {
        Choice::Freeze => 0,
        Choice::Float => 1,
        Choice::Slide => 2,
        Choice::Withdraw => 3,
    }
}

/// Returns the choice that a digit represents.
fn choice_of(digit: u8) -> Choice
    ensures { result ≡ of_digit digit }
{
    match digit {
        0 => Choice::Freeze,
        1 => Choice::Float,
        2 => Choice::Slide,
        _ => Choice::Withdraw,
    }
}
