// The rounds of a season.
ghost use Rattle.std.specs.Prelude.{◌≡◌, ◌<◌, ◌≤◌, ◌+◌, IfOk, None, length, replicate};
ghost use Rattle.allocations.specs.Course.{places};
ghost use Rattle.rounds.specs.Round.{IsRound};
ghost use Rattle.rounds.specs.Rule.{AreSeeks, guarantees, nobody, seekers_of};
ghost use Rattle.apply_engine.specs.Applications.{applications};
ghost use Rattle.apply_engine.specs.Engine.{lists_in};

use crate::one_round::round_over;
use office_base::{OutOfMemory, ProgId, Steps};
use rounds::{Round, Seeks};
use season_file::Season;
use seat_matrix::Matrix;
use std::alloc::Global;
use std::marker::Brand;
use std::sync::ledger::{Blank, Ledger};

/// Returns the round of this number over a season, on what each candidate of the register seeks. The matrix is one of
/// the season's programmes: the season's own one, or one with raised seats. `guaranteed` has for each candidate of the
/// register the programme of which a seat is guaranteed, if there is one.
///
/// The round is the best allocation on what the seeks leave of the choice lists (candidates propose, and acceptance
/// is deferred). Whoever is guaranteed a seat of a programme, applies there and is not chosen has a kept seat of it,
/// beyond those of its steps. The round has the lists of each programme from its applicants.
///
/// Steps rise by one for each application. Everybody has applied to each programme of what their seek leaves, down to
/// that of their seat, or to all of them without a seat. The only error is that memory runs out. It leaves nothing
/// but the steps, which never rise by more than the lengths of what the seeks leave.
pub fn round_with<L: Ledger>(
    alloc: Global,
    season: &Season,
    matrix: &Matrix,
    number: u16,
    seeks: &Seeks,
    guaranteed: &[Option<ProgId>],
    steps: &mut Steps<L>,
) -> Result<Round, OutOfMemory>
    requires programmes { matrix.now.programmes ≡ season.now.matrix.programmes }
    requires sought { AreSeeks (lists_in season.now.choices) seeks.now }
    requires sure { length guaranteed.now ≡ length season.now.register.people }
    ensures round { IfOk result (λ round. IsRound season.now.version
        (guarantees season.now.register.people guaranteed.now) matrix.now
        season.now.register.people (lists_in season.now.choices) number seeks.now round) }
    ensures cost { steps.new ≤ steps.old + places
        (seekers_of matrix.now season.now.register.people (lists_in season.now.choices) seeks.now) }
    ensures counted { IfOk result (λ round.
        steps.new ≡ steps.old + applications (seekers_of matrix.now season.now.register.people
        (lists_in season.now.choices) seeks.now) round.seats) }
{
    let mut own = Seeks::new(alloc);
    own.extend_from_slice(seeks.as_slice())?;
    round_over(
        alloc,
        season.version,
        matrix,
        &season.register,
        &season.choices,
        guaranteed,
        number,
        own,
        steps,
    )
}

/// Returns the same round as `round_with` where nobody is guaranteed a seat.
pub fn round<L: Ledger>(
    alloc: Global,
    season: &Season,
    matrix: &Matrix,
    number: u16,
    seeks: &Seeks,
    steps: &mut Steps<L>,
) -> Result<Round, OutOfMemory>
    requires programmes { matrix.now.programmes ≡ season.now.matrix.programmes }
    requires sought { AreSeeks (lists_in season.now.choices) seeks.now }
    ensures round { IfOk result (λ round. IsRound season.now.version nobody matrix.now
        season.now.register.people (lists_in season.now.choices) number seeks.now round) }
    ensures cost { steps.new ≤ steps.old + places
        (seekers_of matrix.now season.now.register.people (lists_in season.now.choices) seeks.now) }
    ensures counted { IfOk result (λ round.
        steps.new ≡ steps.old + applications (seekers_of matrix.now season.now.register.people
        (lists_in season.now.choices) seeks.now) round.seats) }
{
    let guaranteed = nobody(alloc, season.register.people().len())?;
    round_with(alloc, season, matrix, number, seeks, &guaranteed, steps)
}

/// Returns no guarantee for each of so many candidates.
fn nobody(alloc: Global, count: usize) -> Result<Vec<Option<ProgId>>, OutOfMemory>
    ensures { IfOk result (λ guaranteed. guaranteed.items ≡ replicate count None) }
{
    Ok(vec![in alloc; None; count]?)
}

/// The round of these seeks, its steps counted in a newly opened ledger.
fn round_in<L: Ledger>(
    alloc: Global,
    season: &Season,
    matrix: &Matrix,
    number: u16,
    seeks: Seeks,
    guaranteed: &[Option<ProgId>],
    blank: Blank,
) -> Result<Round, OutOfMemory>
    requires name { blank.name ≡ L.name }
    requires parts { blank.parts ≡ L.parts }
    requires some { 0 < blank.parts }
    requires programmes { matrix.now.programmes ≡ season.now.matrix.programmes }
    requires sought { AreSeeks (lists_in season.now.choices) seeks }
    requires sure { length guaranteed.now ≡ length season.now.register.people }
    ensures { IfOk result (λ round. IsRound season.now.version
        (guarantees season.now.register.people guaranteed.now) matrix.now
        season.now.register.people (lists_in season.now.choices) number seeks round) }
{
    let mut steps: Steps<L> = Steps::new(blank);
    round_over(
        alloc,
        season.version,
        matrix,
        &season.register,
        &season.choices,
        guaranteed,
        number,
        seeks,
        &mut steps,
    )
}

/// Returns the same round as `round_with`, on seeks that it consumes, and counts no steps. The only error is that memory
/// runs out; it leaves nothing.
pub fn plain_round_with(
    alloc: Global,
    season: &Season,
    matrix: &Matrix,
    number: u16,
    seeks: Seeks,
    guaranteed: &[Option<ProgId>],
) -> Result<Round, OutOfMemory>
    requires programmes { matrix.now.programmes ≡ season.now.matrix.programmes }
    requires sought { AreSeeks (lists_in season.now.choices) seeks }
    requires sure { length guaranteed.now ≡ length season.now.register.people }
    ensures round { IfOk result (λ round. IsRound season.now.version
        (guarantees season.now.register.people guaranteed.now) matrix.now
        season.now.register.people (lists_in season.now.choices) number seeks round) }
{
    round_in::<Brand>(
        alloc,
        season,
        matrix,
        number,
        seeks,
        guaranteed,
        Blank::new(1),
    )
}

/// Returns the same round as `plain_round_with` where nobody is guaranteed a seat.
pub fn plain_round(
    alloc: Global,
    season: &Season,
    matrix: &Matrix,
    number: u16,
    seeks: Seeks,
) -> Result<Round, OutOfMemory>
    requires programmes { matrix.now.programmes ≡ season.now.matrix.programmes }
    requires sought { AreSeeks (lists_in season.now.choices) seeks }
    ensures round { IfOk result (λ round. IsRound season.now.version nobody matrix.now
        season.now.register.people (lists_in season.now.choices) number seeks round) }
{
    let guaranteed = nobody(alloc, season.register.people().len())?;
    plain_round_with(alloc, season, matrix, number, seeks, &guaranteed)
}
