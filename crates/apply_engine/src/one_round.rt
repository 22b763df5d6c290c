// A round made: the effective lists, the applications, and the lists of the programmes from those who applied.
ghost use Rattle.std.specs.Prelude.{◌≡◌, ◌≤◌, ◌+◌, IfOk, sum};
ghost use Rattle.allocations.specs.Course.{places};
ghost use Rattle.rounds.specs.Round.{IsRound};
ghost use Rattle.rounds.specs.Rule.{guarantees, seekers_of};
ghost use Rattle.apply_engine.specs.Applications.{applications};
ghost use Rattle.apply_engine.specs.Engine.{AreLawful, Enters, HasRun, IsMade, IsOver, MayRun, Setting, lists_in, seekers_in};

use crate::applications::{Applied, apply_all};
use crate::effective::effective;
use crate::programmes::list_programmes;
use crate::seating::seats_of;
use choice_lists::{Choices, FlatLists};
use office_base::{OutOfMemory, ProgId, Steps};
use rank_lists::Register;
use rounds::{Round, Seeks};
use seat_matrix::Matrix;
use std::alloc::Global;
use std::sync::ledger::Ledger;

/// The laws of the choice of a programme on which a round rests.
fn laws()
    ensures { AreLawful }
{
    open_then_category::laws::one_programme_choice();
    open_then_category::laws::programme_choice_exists();
    open_then_category::laws::admitted_once();
    open_then_category::laws::resumes();
    round_laws::laws::choose_well();
    round_laws::laws::steps_choose_well();
    merit_choice::laws::part_can_be_ranked();
}

/// The round of those who applied: the lists of the programmes, the seats by them, and those that are kept beyond them.
fn finish(
    alloc: Global,
    register: &Register,
    lists: &FlatLists<ProgId>,
    guaranteed: &[Option<ProgId>],
    applied: &Applied,
    number: u16,
    seeks: Seeks,
) -> Result<Round, OutOfMemory>
    ghost over: { Setting }
    requires over { IsOver over register.now.people lists.now guaranteed.now }
    requires run { HasRun over applied.now.next.items
        applied.now.states.items applied.now.tallies.items }
    ensures made { IfOk result (IsMade over number seeks) }
    ensures counted { IfOk result (λ round.
        sum applied.now.next.items ≡ applications (seekers_in over) round.seats) }
{
    let programmes = list_programmes(alloc, applied)?;
    let seats = seats_of(
        alloc,
        register,
        programmes.as_slice(),
        lists,
        guaranteed,
        &applied.next,
    )?;
    Ok(Round {
        number,
        seeks,
        seats,
        programmes,
    })
}

/// The round over effective lists.
fn round_on<L: Ledger>(
    alloc: Global,
    version: u8,
    matrix: &Matrix,
    register: &Register,
    lists: &FlatLists<ProgId>,
    guaranteed: &[Option<ProgId>],
    number: u16,
    seeks: Seeks,
    steps: &mut Steps<L>,
) -> Result<Round, OutOfMemory>
    ghost over: { Setting }
    requires { Enters over version matrix.now register.now.people lists.now guaranteed.now }
    ensures round { IfOk result (IsMade over number seeks) }
    ensures cost { steps.new ≤ steps.old + places (seekers_in over) }
    ensures counted { IfOk result (λ round.
        steps.new ≡ steps.old + applications (seekers_in over) round.seats) }
{
    let applied = apply_all(alloc, version, matrix, register, lists, guaranteed, steps)?;
    finish(alloc, register, lists, guaranteed, &applied, number, seeks)
}

/// The round over choices, on these seeks and guarantees.
pub(crate) fn round_over<L: Ledger>(
    alloc: Global,
    version: u8,
    matrix: &Matrix,
    register: &Register,
    choices: &Choices,
    guaranteed: &[Option<ProgId>],
    number: u16,
    seeks: Seeks,
    steps: &mut Steps<L>,
) -> Result<Round, OutOfMemory>
    requires { MayRun version matrix.now register.now choices.now seeks guaranteed.now }
    ensures round { IfOk result (λ round.
        IsRound version (guarantees register.now.people guaranteed.now) matrix.now
        register.now.people (lists_in choices.now) number seeks round) }
    ensures cost { steps.new ≤ steps.old
        + places (seekers_of matrix.now register.now.people (lists_in choices.now) seeks) }
    ensures counted { IfOk result (λ round. steps.new ≡ steps.old + applications
        (seekers_of matrix.now register.now.people (lists_in choices.now) seeks) round.seats) }
{
    laws();
    let _count = matrix.count();
    let _people = register.people();
    let lists = effective(alloc, matrix, choices, seeks.as_slice())?;
    round_on(
        alloc, version, matrix, register, &lists, guaranteed, number, seeks, steps,
    )
}
