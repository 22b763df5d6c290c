// The rows of programmes.
ghost use Rattle.std.specs.Prelude.{◌≡◌, ◌<◌, ◌≤◌, ◌+◌, ◌/◌, ◌++◌, OnOk};
ghost use Rattle.office_base.specs.Limits.{most_generated};
ghost use Rattle.step_lines.specs.Lines.{step_name};
ghost use Rattle.season_generator.specs.Bundle.{matrix_row, matrix_text, programme_rows, step_seats};

use crate::spelling::{push_code, push_field};
use office_base::{OWN_STEPS, OutOfMemory, StepKind, Text};
use office_text::push_number;
use step_lines::step_name;

/// What a programme has in a step.
#[derive(Clone, Copy, PartialEq, Eq)]
pub struct StepSeats {
    pub seats: u32,
    /// Those protected for women.
    pub women: u32,
    /// Those protected for persons with disabilities.
    pub disabled: u32,
}

/// Puts the matrix of a season of `n` candidates.
#[tactic(auto, unfolding(crate::specs::Bundle::matrix_text))]
pub(crate) fn push_matrix(out: &mut Text, n: u32) -> Result<(), OutOfMemory>
    requires { n ≤ most_generated }
    ensures { OnOk result (out.new ≡ out.old ++ matrix_text n) }
{
    out.extend_from_slice(b"[matrix]\nprogramme,institute,list,step,seats,W,D,X,S,F,L\n")?;
    let size = n / 800 + 1;
    for programme in 0..100 {
        push_programme(out, size, programme)?;
    }
    Ok(())
}

/// Puts the rows of a programme: one for each step that has seats of its own.
#[tactic(auto, unfolding(crate::specs::Bundle::programme_rows))]
fn push_programme(out: &mut Text, size: u32, programme: u32) -> Result<(), OutOfMemory>
    requires size { size < 1000 }
    requires programme { programme < 100 }
    ensures { OnOk result (out.new ≡ out.old ++ programme_rows size programme) }
{
    for step in OWN_STEPS {
        let has = step_seats(size, step);
        push_step(out, programme, step, has.seats, has.women, has.disabled)?;
    }
    Ok(())
}

/// Returns what a programme has in a step, where the size is its seats for OBC.
fn step_seats(size: u32, step: StepKind) -> StepSeats
    requires { size < 1000 }
    ensures { result ≡ step_seats size step }
{
    match step {
        StepKind::Open => StepSeats {
            seats: 2 * size,
            women: size / 2,
            disabled: size / 8,
        },
        StepKind::Obc => StepSeats {
            seats: size,
            women: size / 4,
            disabled: size / 16,
        },
        StepKind::St => StepSeats {
            seats: size / 4,
            women: 0,
            disabled: 0,
        },
        _ => StepSeats {
            seats: size / 2,
            women: size / 8,
            disabled: 0,
        },
    }
}

/// Puts the row of a step of a programme: its seats, and those protected for women and for persons with disabilities.
#[tactic(auto, unfolding(crate::specs::Bundle::matrix_row))]
fn push_step(
    out: &mut Text,
    programme: u32,
    step: StepKind,
    seats: u32,
    women: u32,
    disabled: u32,
) -> Result<(), OutOfMemory>
    requires { programme < 100 }
    ensures { OnOk result
        (out.new ≡ out.old ++ matrix_row programme (step_name step) seats women disabled) }
{
    push_code(out, programme)?;
    out.extend_from_slice(b",I")?;
    push_number(out, programme / 10)?;
    push_field(out, 1 + programme % 2)?;
    out.extend_from_slice(b",")?;
    out.extend_from_slice(step_name(step).as_bytes())?;
    push_field(out, seats)?;
    push_field(out, women)?;
    push_field(out, disabled)?;
    out.extend_from_slice(b"\n")
}
