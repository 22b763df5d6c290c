// The season that final rows leave.
ghost use Rattle.std.specs.Prelude.{◌≡◌, ◌<◌, [], IfOk, IfErr, List, None, map};
ghost use Rattle.office_base.specs.Lists.{Pairwise};
ghost use Rattle.section_rows.specs.Rows.{Row, rows_of};
ghost use Rattle.choice_lists.specs.Choices.{IsRead};
ghost use Rattle.season_facts.specs.Season.{facts_of};
ghost use Rattle.special_round.specs.Remaining.{AreFinals};
ghost use Rattle.special_round.specs.Season.{AreRefused, IsLeftSeason, first_admitted};

use crate::fault::SpecialFault;
use crate::lists::first_of_admitted;
use crate::matrix::remaining_matrix;
use choice_lists::Choices;
use choice_lists::laws::{one_reading, same_reading};
use kept_rows::AllotRow;
use office_base::Text;
use rank_lists::Register;
use season_file::Season;
use seat_matrix::Matrix;
use section_rows::TableFault;
use std::alloc::Global;

/// The lists of those without an admission, or what they have to be refused for.
fn read_lists(
    alloc: Global,
    season: &Season,
    finals: &[AllotRow],
    lists: &[u8],
) -> Result<Choices, SpecialFault>
    requires { Pairwise (λ a b. a.cand.0 < b.cand.0) finals.now }
    ensures read { IfOk result (λ choices.
        IsRead season.now.register season.now.matrix (rows_of lists.now) choices) }
    ensures nobody { IfOk result (λ _. first_admitted finals.now (rows_of lists.now) ≡ None) }
    ensures aligned { IfOk result (λ choices.
        map (λ held. held.0) choices ≡ map (λ person. person.id.0) season.now.register.people) }
    ensures fault { IfErr result (AreRefused (facts_of season.now) finals.now lists.now) }
{
    let choices = match Choices::read(alloc, lists, &season.register, &season.matrix) {
        Ok(choices) => choices,
        Err(TableFault::OutOfMemory) => return Err(SpecialFault::OutOfMemory),
        Err(fault) => return Err(SpecialFault::Lists(fault)),
    };
    match first_of_admitted(alloc, finals, lists)? {
        Some(row) => Err(SpecialFault::Admitted { row }),
        None => Ok(choices),
    }
}

/// The season of one round with the people of another one, over this matrix of its programmes and with these lists.
fn one_round(
    alloc: Global,
    season: &Season,
    register: Register,
    matrix: Matrix,
    choices: Choices,
) -> Season
    requires people { register ≡ season.now.register }
    requires programmes { matrix.programmes ≡ season.now.matrix.programmes }
    requires lists { (rows : List Row) × IsRead season.now.register season.now.matrix rows choices }
    requires aligned { map (λ held. held.0) choices
        ≡ map (λ person. person.id.0) season.now.register.people }
    ensures version { result.version ≡ season.now.version }
    ensures rounds { result.rounds ≡ 1 }
    ensures clerk { result.clerk ≡ season.now.clerk }
    ensures register { result.register ≡ season.now.register }
    ensures matrix { result.matrix ≡ matrix }
    ensures choices { result.choices ≡ choices }
    ensures text { result.text ≡ [] }
{
    one_reading();
    same_reading();
    Season {
        version: season.version,
        rounds: 1,
        clerk: season.clerk,
        register,
        matrix,
        choices,
        text: Text::new(alloc),
    }
}

/// The season that final rows leave of a season and of a matrix of its programmes, with the lists of a body; or what these have to be refused for.
pub fn left_season(
    alloc: Global,
    season: &Season,
    table: &Matrix,
    finals: &[AllotRow],
    lists: &[u8],
) -> Result<Season, SpecialFault>
    requires programmes { table.now.programmes ≡ season.now.matrix.programmes }
    requires finals { AreFinals season.now.register.people table.now finals.now }
    ensures season { IfOk result
        (IsLeftSeason (facts_of season.now) table.now finals.now lists.now) }
    ensures fault { IfErr result (AreRefused (facts_of season.now) finals.now lists.now) }
{
    let choices = read_lists(alloc, season, finals, lists)?;
    let register = season.register.copy(alloc)?;
    let matrix = remaining_matrix(alloc, &season.register, finals, table)?;
    let _ = matrix.count();
    Ok(one_round(alloc, season, register, matrix, choices))
}
