// What holds of the texts of a special round, and of two calls of the command.
ghost use Rattle.std.specs.Prelude.{ℕ, List};
ghost use Rattle.kept_rows.specs.declared.rows.AllotRow.{AllotRow};
ghost use Rattle.office_moves.specs.Facts.{IsSound, SeasonFacts};
ghost use Rattle.season_facts.specs.Season.{facts_of};
ghost use Rattle.seat_matrix.specs.Matrix.{SeatTable};
ghost use Rattle.special_round.specs.Special.{IsSpecialOver};
ghost use Rattle.special_round.specs.declared.round_over.Special.{Special};
ghost use Rattle.special_command.specs.Texts.{CanBeListed, CanBeShown};
ghost use Rattle.office_moves.specs.State.{State};
ghost use Rattle.special_command.specs.Special.{HaveOneSpecial};

/// Every special round can be shown.
pub fn special_rounds_can_be_shown()
    ensures { (facts : SeasonFacts) (table : SeatTable) (rows : List AllotRow)
        (body : List ℕ) (special : Special) → IsSound (facts_of special.season)
        → IsSpecialOver facts table rows body special → CanBeShown special }
{}

/// The lists of every special round can be shown, and they have cutoffs.
pub fn special_rounds_can_be_listed()
    ensures { (facts : SeasonFacts) (table : SeatTable) (rows : List AllotRow)
        (body : List ℕ) (special : Special) → IsSound (facts_of special.season)
        → IsSpecialOver facts table rows body special → CanBeListed special }
{
    round_laws::laws::choose_well();
    open_then_category::laws::slots_are_traits();
    programme_cutoffs::laws::lists_are_kept();
}

/// Shows that over the state of an office bytes are lists of a special round without faults or have a fault,
/// and never both.
/// At most one line reports that fault.
/// No round is made of bytes with a fault.
pub fn one_special_answer()
    ensures { (facts : SeasonFacts) (state : State) (bytes : List ℕ)
        → HaveOneSpecial facts state bytes }
{
    special_round::laws::one_remaining();
}
