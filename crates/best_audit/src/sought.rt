// What everybody seeks at a cut of a replay.
ghost use Rattle.std.specs.Prelude.{◌≡◌, ◌≤◌, IfOk};
ghost use Rattle.office_moves.specs.Moves.{next_seeks};
ghost use Rattle.season_facts.specs.Season.{facts_of};
ghost use Rattle.office_moves.specs.State.{State};
ghost use Rattle.audit_rules.specs.InOrder.{IsInOrder};
ghost use Rattle.audit_rules.specs.Stands.{stands_along};

use audit_rules::{Stand, seek_of};
use office_base::OutOfMemory;
use rounds::Seeks;
use season_file::Season;
use std::alloc::Global;

/// Returns what everybody seeks at the cut of the open window, along the register.
pub(crate) fn seeks_at(
    alloc: Global,
    season: &Season,
    stands: &[Stand],
) -> Result<Seeks, OutOfMemory>
    ghost state: { State }
    requires order { IsInOrder (facts_of season.now) state }
    requires stands { stands.now ≡ stands_along (facts_of season.now) state }
    requires early { state.now ≤ (facts_of season.now).rounds }
    ensures { IfOk result (λ seeks. seeks ≡ next_seeks (facts_of season.now) state) }
{
    let mut seeks = Seeks::with_capacity(alloc, stands.len())?;
    for (k, person) in season.register.people().iter().enumerate() {
        let list = season.choices.list_near(k, person.id);
        seeks.push(seek_of(list, &stands[k]))?;
    }
    Ok(seeks)
}
