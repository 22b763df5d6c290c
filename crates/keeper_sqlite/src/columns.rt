// The numbers in the columns of a row.
ghost use Rattle.std.specs.Prelude.{ℕ, IfOk, IfErr, OnOk};
ghost use Rattle.keeper_sqlite.specs.Halts.{WantsMemory};
ghost use Rattle.keeper_sqlite.specs.Columns.{Holds, IsNumbered, IsChoiceAt, IsSeatKindAt, IsStepAt};
ghost use Rattle.office_base.specs.declared.choice.Choice.{Choice};
ghost use Rattle.office_base.specs.declared.seat.SeatKind.{SeatKind};
ghost use Rattle.office_base.specs.declared.step.StepKind.{StepKind};

use crate::halt::Halt;
use crate::numbers::choice_of_number;
use office_base::{Choice, SeatKind, StepKind, seat_kind_of_number, step_of_number};
use sqlite::Row;

/// Reads a number of at most 32 bits.
pub(crate) fn number_at(row: &Row, at: usize) -> Result<u32, Halt>
    ensures ok { IfOk result (Holds row.now 32 at) }
    ensures err { IfErr result (λ halt. ¬ WantsMemory halt → (n : ℕ) → ¬ Holds row.now 32 at n) }
{
    Ok(row.get(at)?)
}

/// Reads a number of at most 16 bits.
pub(crate) fn small_number_at(row: &Row, at: usize) -> Result<u16, Halt>
    ensures ok { IfOk result (Holds row.now 16 at) }
    ensures err { IfErr result (λ halt. ¬ WantsMemory halt → (n : ℕ) → ¬ Holds row.now 16 at n) }
{
    u16::try_from(number_at(row, at)?).map_err(|_| Halt::Unfit)
}

/// Tests that the first column numbers the row, from 1.
pub(crate) fn expect_number(row: &Row) -> Result<(), Halt>
    ensures ok { OnOk result (IsNumbered row.now) }
    ensures err { IfErr result (λ halt. ¬ WantsMemory halt → ¬ IsNumbered row.now) }
{
    let seq: u64 = row.get(0)?;
    if seq == 0 {
        return Err(Halt::Unfit);
    }
    Ok(())
}

pub(crate) fn choice_at(row: &Row, at: usize) -> Result<Choice, Halt>
    ensures ok { IfOk result (IsChoiceAt row.now at) }
    ensures err { IfErr result (λ halt. ¬ WantsMemory halt
        → (choice : Choice) → ¬ IsChoiceAt row.now at choice) }
{
    choice_of_number(number_at(row, at)?).ok_or(Halt::Unfit)
}

pub(crate) fn step_at(row: &Row, at: usize) -> Result<StepKind, Halt>
    ensures ok { IfOk result (IsStepAt row.now at) }
    ensures err { IfErr result (λ halt. ¬ WantsMemory halt
        → (step : StepKind) → ¬ IsStepAt row.now at step) }
{
    let number = u8::try_from(number_at(row, at)?).map_err(|_| Halt::Unfit)?;
    step_of_number(number).ok_or(Halt::Unfit)
}

pub(crate) fn seat_kind_at(row: &Row, at: usize) -> Result<SeatKind, Halt>
    ensures ok { IfOk result (IsSeatKindAt row.now at) }
    ensures err { IfErr result (λ halt. ¬ WantsMemory halt
        → (kind : SeatKind) → ¬ IsSeatKindAt row.now at kind) }
{
    let number = u8::try_from(number_at(row, at)?).map_err(|_| Halt::Unfit)?;
    seat_kind_of_number(number).ok_or(Halt::Unfit)
}
