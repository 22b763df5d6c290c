// The reader of lists.
ghost use Rattle.std.specs.Prelude.{◌≡◌, ◌<◌, ◌≤◌, ◌+◌, ◌-◌, ◌^◌, ◌∷◌, [], ◌++◌, ℕ, List, IfNone, IfOk, IfSome, OnOk, IsTrue, ◌↔◌, length};
ghost use Rattle.text_readers.specs.Reading.{Begins, EndsWithLines, HasNo, IsAnswered, IsWhole};
ghost use Rattle.list_texts.specs.ListLines.{Said, slots_in, step_list, steps_text};
ghost use Rattle.list_texts.specs.ListReader.{AreKnown, KeepsList, list_grammar, list_left};
ghost use Rattle.list_texts.specs.Listing.{pair_of};

use crate::list_pieces::{begins_entries, begins_list_head, begins_step_head};
use crate::list_stage::{ListStage, OpenStep};
use crate::list_words::{honoured_slots, list_head, next_entry, slots_within, step_head};
use crate::numbers::begins_count;
use office_base::{OutOfMemory, Pair, Pairs, People, Person, ProgId, StepKind};
use programme_lists::StepList;
use rank_lists::Register;
use seat_matrix::Matrix;
use slot_cert::Cert;
use std::alloc::Global;
use std::collections::BTreeSet;
use std::mem;
use text_readers::{LineReader, begins_whole};

/// Holds the text of a list while it is read.
#[derive(Drop)]
pub(crate) struct ListReader<'a> {
    pub(crate) alloc: Global,
    pub(crate) matrix: &'a Matrix,
    pub(crate) register: &'a Register,
    pub(crate) stage: ListStage,
    /// The round that the first line names; 0 before it.
    pub(crate) number: u16,
    /// The programme that the first line names; the first programme before it.
    pub(crate) prog: ProgId,
    /// The steps to come after the one that is read.
    pub(crate) kinds: &'a [StepKind],
    /// The steps that were read.
    pub(crate) steps: Vec<StepList>,
    /// The persons of the rows that were read of the step.
    pub(crate) admitted: People,
    /// The pairs of those with a slot.
    pub(crate) pairs: Pairs,
    /// The ids of the admitted.
    pub(crate) used: BTreeSet<u32>,
}

/// Returns the first of these steps, and those after it.
fn first_step(kinds: &[StepKind]) -> Option<(StepKind, &[StepKind])>
    ensures some { IfSome result (λ first. kinds.now ≡ first.0 ∷ first.1.now) }
    ensures none { IfNone result (kinds.now ≡ []) }
{
    match kinds {
        [] => None,
        [kind, later @ ..] => Some((*kind, later)),
    }
}

/// Returns how many people a register has.
fn count_people(register: &Register) -> u32
    ensures { result ≡ length register.now.people }
{
    register.people().len() as u32
}

/// Puts the pair of a person with a slot.
fn put_pair(pairs: &mut Pairs, person: &Person, slot: Option<u8>) -> Result<(), OutOfMemory>
    ensures { OnOk result (pairs.new ≡ pairs.old ++ pair_of person.now slot) }
{
    match slot {
        Some(slot) => pairs.push(Pair {
            cand: person.id,
            slot,
        }),
        None => Ok(()),
    }
}

/// Returns how many of these slots are left after one, where it is one.
fn slots_after(slots: u32, slot: Option<u8>) -> u32
    ensures { result ≡ slots - slots_in slot }
{
    match slot {
        Some(_) => slots.saturating_sub(1),
        None => slots,
    }
}

impl ListReader<'_> {
    /// Takes the first line.
    fn take_head(&mut self, line: &[u8]) -> bool
        requires keeps { KeepsList self.old }
        requires stage { self.old.stage ≡ ListStage.Head }
        requires line { HasNo 10 line.now }
        ensures answered { IsAnswered (list_grammar self.old)
            (list_grammar self.new) line.now result }
        ensures keeps { IsTrue result → KeepsList self.new }
        ensures left { IsTrue result → list_left self.new < list_left self.old }
    {
        let Some((number, prog)) = list_head(self.matrix, line) else {
            return false;
        };
        self.number = number;
        self.prog = prog;
        self.stage = ListStage::Steps;
        true
    }

    /// Takes the last line.
    fn take_last(&mut self, line: &[u8]) -> bool
        requires keeps { KeepsList self.old }
        requires stage { self.old.stage ≡ ListStage.Steps }
        requires kinds { self.old.kinds.now ≡ [] }
        requires line { HasNo 10 line.now }
        ensures answered { IsAnswered (list_grammar self.old)
            (list_grammar self.new) line.now result }
        ensures keeps { IsTrue result → KeepsList self.new }
        ensures left { IsTrue result → list_left self.new < list_left self.old }
    {
        if line == b"end list".as_slice() {
            self.stage = ListStage::Done;
            true
        } else {
            false
        }
    }

    /// Takes the line of a step, or the last line after all of them.
    fn take_step(&mut self, line: &[u8]) -> bool
        requires keeps { KeepsList self.old }
        requires stage { self.old.stage ≡ ListStage.Steps }
        requires line { HasNo 10 line.now }
        ensures answered { IsAnswered (list_grammar self.old)
            (list_grammar self.new) line.now result }
        ensures keeps { IsTrue result → KeepsList self.new }
        ensures left { IsTrue result → list_left self.new < list_left self.old }
    {
        let Some((kind, later)) = first_step(self.kinds) else {
            return self.take_last(line);
        };
        let Some(head) = step_head(kind, count_people(self.register), line) else {
            return false;
        };
        self.kinds = later;
        self.stage = ListStage::Honoured {
            step: OpenStep {
                kind,
                seats: head.seats,
                candidates: head.candidates,
            },
            rows: head.admitted,
        };
        true
    }

    /// Takes the line of the slots of a step with so many rows.
    fn take_honoured(&mut self, step: OpenStep, rows: u32, line: &[u8]) -> Result<bool, OutOfMemory>
        requires keeps { KeepsList self.old }
        requires stage { self.old.stage ≡ ListStage.Honoured step rows }
        requires line { HasNo 10 line.now }
        ensures answered { IfOk result (λ taken.
            IsAnswered (list_grammar self.old) (list_grammar self.new) line.now taken) }
        ensures keeps { IfOk result (λ taken. IsTrue taken → KeepsList self.new) }
        ensures left { IfOk result (λ taken. IsTrue taken
            → list_left self.new < list_left self.old) }
    {
        let Some(slots) = honoured_slots(slots_within(step.kind, rows), line) else {
            return Ok(false);
        };
        if rows > 0 {
            self.stage = ListStage::Rows { step, rows, slots };
            return Ok(true);
        }
        let list = StepList {
            kind: step.kind,
            seats: step.seats,
            candidates: step.candidates,
            admitted: People::new(self.alloc),
            cert: Cert {
                pairs: Pairs::new(self.alloc),
            },
        };
        self.steps.push(list)?;
        self.stage = ListStage::Steps;
        Ok(true)
    }

    /// Takes a row of a step, where so many are to come, so many of them with a slot.
    fn take_row(
        &mut self,
        step: OpenStep,
        rows: u32,
        slots: u32,
        line: &[u8],
    ) -> Result<bool, OutOfMemory>
        requires keeps { KeepsList self.old }
        requires stage { self.old.stage ≡ ListStage.Rows step rows slots }
        requires line { HasNo 10 line.now }
        ensures answered { IfOk result (λ taken.
            IsAnswered (list_grammar self.old) (list_grammar self.new) line.now taken) }
        ensures keeps { IfOk result (λ taken. IsTrue taken → KeepsList self.new) }
        ensures left { IfOk result (λ taken. IsTrue taken
            → list_left self.new < list_left self.old) }
    {
        let left = rows - 1;
        let Some((person, slot)) = next_entry(self.register, &self.used, left, slots, line) else {
            return Ok(false);
        };
        self.admitted.push(person)?;
        put_pair(&mut self.pairs, &person, slot)?;
        if left > 0 {
            self.used.insert(person.id.0)?;
            self.stage = ListStage::Rows {
                step,
                rows: left,
                slots: slots_after(slots, slot),
            };
            return Ok(true);
        }
        let list = StepList {
            kind: step.kind,
            seats: step.seats,
            candidates: step.candidates,
            admitted: mem::replace(&mut self.admitted, People::new(self.alloc)),
            cert: Cert {
                pairs: mem::replace(&mut self.pairs, Pairs::new(self.alloc)),
            },
        };
        self.steps.push(list)?;
        self.used = BTreeSet::new(self.alloc);
        self.stage = ListStage::Steps;
        Ok(true)
    }
}

impl LineReader for ListReader<'_> {
    ghost use Rattle.list_texts.specs.ListLines.{Said};
    ghost use Rattle.list_texts.specs.ListReader.{KeepsList, list_grammar, list_left, said_by};

    ghost Value = { Said };

    ghost grammar = { list_grammar };

    ghost value = { said_by };

    ghost left = { list_left };

    ghost keeps = { KeepsList };

    fn take(&mut self, line: &[u8]) -> Result<bool, OutOfMemory> {
        match self.stage {
            ListStage::Head => Ok(self.take_head(line)),
            ListStage::Steps => Ok(self.take_step(line)),
            ListStage::Honoured { step, rows } => self.take_honoured(step, rows, line),
            ListStage::Rows { step, rows, slots } => self.take_row(step, rows, slots, line),
            ListStage::Done => Ok(false),
        }
    }

    fn begins(&self, piece: &[u8]) -> bool {
        match self.stage {
            ListStage::Head => begins_list_head(self.matrix, piece),
            ListStage::Steps => begins_next_step(self.matrix, self.register, self.kinds, piece),
            ListStage::Honoured { step, rows } => {
                begins_count(b"honoured ", slots_within(step.kind, rows), piece)
            }
            ListStage::Rows {
                step: _,
                rows,
                slots,
            } => {
                let people = self.register.people();
                begins_entries(people, &self.used, rows - 1, slots, piece)
            }
            ListStage::Done => false,
        }
    }

    fn is_whole(&self) -> bool {
        match self.stage {
            ListStage::Head => false,
            ListStage::Steps => false,
            ListStage::Honoured { .. } => false,
            ListStage::Rows { .. } => false,
            ListStage::Done => true,
        }
    }
}

/// Returns whether a piece of a line begins that of the first of these steps, or the last line if there is none.
fn begins_next_step(matrix: &Matrix, register: &Register, kinds: &[StepKind], piece: &[u8]) -> bool
    requires known { AreKnown matrix.now register.now.people }
    requires piece { HasNo 10 piece.now }
    ensures { (said : Said)
        → IsTrue result ↔ Begins (steps_text register.now.people kinds.now said) piece.now }
{
    match first_step(kinds) {
        Some((kind, _)) => begins_step_head(kind, count_people(register), piece),
        None => begins_whole(piece, b"end list"),
    }
}
