// What holds of two runs of the command on a bundle with home-state quotas, and of who has a seat in a unit.
ghost use Rattle.std.specs.Prelude.{◌≡◌, ℕ, List, true};
ghost use Rattle.office_asks.specs.declared.ask.Request.{Request};
ghost use Rattle.quota_units.specs.Expansion.{IsExpansion};
ghost use Rattle.season_file.specs.Season.{IsSeasonWith};
ghost use Rattle.season_file.specs.declared.season.Season.{Season};
ghost use Rattle.season_facts.specs.Season.{facts_of};
ghost use Rattle.command_answers.specs.Answers.{HaveOneAnswer};
ghost use Rattle.units_command.specs.Units.{AlwaysLiveRight, units_answers};

/// Shows that bytes result in a plain bundle without faults or have a fault, and never both.
/// At most one line reports that fault.
pub fn one_units_answer()
    ensures { (bytes : List ℕ) → HaveOneAnswer units_answers bytes }
{
    season_commands::laws::one_bundle_answer();
}

/// Shows that a candidate who has a seat in a unit, in any round, lives where the unit is for.
pub fn seats_right()
    ensures { (bytes text : List ℕ) (made : IsExpansion bytes text) (season : Season)
        (script : List Request) → IsSeasonWith true text season script
        → AlwaysLiveRight made.units made.states (facts_of season) }
{
    season_file::laws::one_reading();
    history_laws::laws::runs_its_course();
}
