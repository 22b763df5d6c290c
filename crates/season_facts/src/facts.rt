// What holds of every season that was read.
ghost use Rattle.office_moves.specs.Facts.{IsSound};
ghost use Rattle.season_facts.specs.Season.{facts_of};

use season_file::Season;

/// What a season says is sound. It takes no memory.
pub fn says_what_is_sound(season: &Season)
    ensures { IsSound (facts_of season.now) }
{
    let _ = season.register.people();
    let _ = season.matrix.count();
}
