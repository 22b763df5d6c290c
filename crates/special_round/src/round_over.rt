// The special round.
ghost use Rattle.std.specs.Prelude.{◌≡◌, ◌<◌, ◌≤◌, ◌+◌, ℕ, IfOk, IfErr, length};
ghost use Rattle.season_facts.specs.Season.{facts_of};
ghost use Rattle.allocations.specs.Course.{places};
ghost use Rattle.rounds.specs.Rule.{seekers_of};
ghost use Rattle.round_laws.specs.Laws.{lists_in};
ghost use Rattle.special_round.specs.Laws.{FitInto};
ghost use Rattle.special_round.specs.Remaining.{AreFinals};
ghost use Rattle.special_round.specs.Rows.{rows_of_step};
ghost use Rattle.special_round.specs.Season.{AreRefused};
ghost use Rattle.special_round.specs.Special.{IsSpecialOver, all_whole};

use crate::fault::SpecialFault;
use crate::laws::{together_within, whole_for_all, whole_seeks_fit};
use crate::season::left_season;
use crate::vacant::vacant_seats;
use apply_engine::round;
use kept_rows::AllotRow;
use office_base::{OutOfMemory, Person, Steps};
use rounds::{Round, Seeks};
use season_facts::says_what_is_sound;
use season_file::Season;
use seat_matrix::Matrix;
use seeks::Seek;
use std::alloc::Global;
use std::sync::ledger::Ledger;

/// The season that final admissions left, how many seats were vacant, and the round over it.
#[derive(Drop)]
pub struct Special {
    pub season: Season,
    pub vacant: u32,
    pub round: Round,
}

/// Returns seeks with which everybody seeks their whole own list.
fn whole_seeks(alloc: Global, people: &[Person]) -> Result<Seeks, OutOfMemory>
    ensures { IfOk result (λ seeks. seeks ≡ all_whole people.now) }
{
    whole_for_all();
    Ok(Seeks::from_vec(vec![in alloc; Seek::Whole; people.len()]?))
}

/// Returns the special round over a season, a matrix of its programmes, final rows that fit into it, and the lists of a body.
/// If it must refuse these, it returns why. Each seeker goes down their own list once: steps rise at most by the lengths of
/// all lists.
pub fn special_over<L: Ledger>(
    alloc: Global,
    season: &Season,
    table: &Matrix,
    finals: &[AllotRow],
    lists: &[u8],
    steps: &mut Steps<L>,
) -> Result<Special, SpecialFault>
    requires programmes { table.now.programmes ≡ season.now.matrix.programmes }
    requires finals { AreFinals season.now.register.people table.now finals.now }
    requires fit { (prog : ℕ) → prog < length season.now.matrix.programmes
        → FitInto table.now prog (rows_of_step finals.now prog) }
    ensures special { IfOk result
        (IsSpecialOver (facts_of season.now) table.now finals.now lists.now) }
    ensures fault { IfErr result (AreRefused (facts_of season.now) finals.now lists.now) }
    ensures cost { IfOk result (λ special.
        steps.new ≤ steps.old + places (seekers_of special.season.matrix season.now.register.people
        (lists_in special.season.choices) (all_whole season.now.register.people))) }
{
    let left = left_season(alloc, season, table, finals, lists)?;
    let seeks = whole_seeks(alloc, left.register.people())?;
    whole_seeks_fit();
    let round = round(alloc, &left, &left.matrix, 1, &seeks, steps)?;
    says_what_is_sound(season);
    says_what_is_sound(&left);
    together_within();
    Ok(Special {
        season: left,
        vacant: vacant_seats(table, finals.len()),
        round,
    })
}
