// The special round of an office.
ghost use Rattle.std.specs.Prelude.{◌≤◌, ◌+◌, IfOk, IfErr};
ghost use Rattle.allocations.specs.Course.{places};
ghost use Rattle.history_laws.specs.Orderly.{IsOrderly};
ghost use Rattle.office_moves.specs.Facts.{IsSound};
ghost use Rattle.rounds.specs.Rule.{seekers_of};
ghost use Rattle.round_laws.specs.Laws.{lists_in};
ghost use Rattle.special_round.specs.Season.{IsRemainingSeason, IsSpecialFault};
ghost use Rattle.special_round.specs.Special.{IsSpecial, all_whole};

use crate::fault::SpecialFault;
use crate::laws::{finals_are_known, finals_fit};
use crate::round_over::{Special, special_over};
use crate::season::left_season;
use history_laws::laws::orderly;
use keeper_mem::Keeper;
use office_base::Steps;
use round_cut::Office;
use season_facts::says_what_is_sound;
use season_file::Season;
use std::alloc::Global;
use std::sync::ledger::Ledger;

// What holds of the season and the state of every office.
fn is_in_order<K: Keeper>(office: &Office<K>)
    ensures sound { IsSound office.now.season }
    ensures orderly { IsOrderly office.now.season office.now.state }
{
    says_what_is_sound(office.season());
    let _ = office.entries();
    orderly();
}

/// The season that an office's final admissions left of the raised matrix, with these lists of those without an admission: the body of a section of
/// choices. The office stays as it is.
pub fn remaining<K: Keeper>(
    alloc: Global,
    office: &Office<K>,
    lists: &[u8],
) -> Result<Season, SpecialFault>
    ensures season { IfOk result (IsRemainingSeason office.now.season office.now.state lists.now) }
    ensures fault { IfErr result (IsSpecialFault office.now.season office.now.state lists.now) }
{
    let Some(finals) = office.finals() else {
        return Err(SpecialFault::NotFinal { now: office.now() });
    };
    is_in_order(office);
    finals_are_known();
    left_season(alloc, office.season(), office.matrix(), finals, lists)
}

/// The special round of an office, with these lists of those without an admission: the body of a section of choices. Steps rise at most by the lengths of
/// all lists. The office stays as it is.
pub fn special<K: Keeper, L: Ledger>(
    alloc: Global,
    office: &Office<K>,
    lists: &[u8],
    steps: &mut Steps<L>,
) -> Result<Special, SpecialFault>
    ensures special { IfOk result (IsSpecial office.now.season office.now.state lists.now) }
    ensures fault { IfErr result (IsSpecialFault office.now.season office.now.state lists.now) }
    ensures cost { IfOk result (λ special.
        steps.new ≤ steps.old + places (seekers_of special.season.matrix office.now.season.people
        (lists_in special.season.choices) (all_whole office.now.season.people))) }
{
    let Some(finals) = office.finals() else {
        return Err(SpecialFault::NotFinal { now: office.now() });
    };
    is_in_order(office);
    finals_are_known();
    finals_fit();
    special_over(
        alloc,
        office.season(),
        office.matrix(),
        finals,
        lists,
        steps,
    )
}
