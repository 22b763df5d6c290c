// What holds of final rows and of the seats that they leave. Each is the contract of a function that does nothing.
ghost use Rattle.std.specs.Prelude.{◌≡◌, ◌<◌, ◌≤◌, ℕ, List, length, map, replicate, sum};
ghost use Rattle.office_base.specs.declared.person.Person.{Person};
ghost use Rattle.choice_lists.specs.Choices.{Lists};
ghost use Rattle.seeks.specs.declared.seek.Seek.TheVariants.{Whole};
ghost use Rattle.rounds.specs.Rule.{AreSeeks};
ghost use Rattle.round_laws.specs.Laws.{lists_in};
ghost use Rattle.special_round.specs.Special.{all_whole};
ghost use Rattle.office_base.specs.Lists.{Pairwise};
ghost use Rattle.kept_rows.specs.declared.rows.AllotRow.{AllotRow};
ghost use Rattle.office_base.specs.declared.step.Pair.{Pair};
ghost use Rattle.office_moves.specs.Facts.{SeasonFacts};
ghost use Rattle.office_moves.specs.State.{State};
ghost use Rattle.special_round.specs.Remaining.{protections_left};
ghost use Rattle.special_round.specs.Set.{OwnRowsRank, OwnRowsSayAll};
ghost use Rattle.special_round.specs.Laws.{FinalsAreKnown, FinalsFit, HaveOneAnswer, RoundsFit, TogetherWithin};

/// A round gives no more seats of a programme than there are, step by step.
pub fn rounds_fit()
    ensures { RoundsFit }
{
    round_laws::laws::choose_well();
    open_then_category::laws::one_programme_choice();
}

/// The final rows of a season fit into the raised matrix.
pub fn finals_fit()
    ensures { FinalsFit }
{
    rounds_fit();
}

/// They are of people in rising order of id, at programmes in whose merit lists these have a place.
pub fn finals_are_known()
    ensures { FinalsAreKnown }
{}

/// Rows and the seats of a round over what they left are together no more than the seats of a programme.
pub fn together_within()
    ensures { TogetherWithin }
{
    rounds_fit();
}

/// Over the tables of an office, lists may be handed in or have one fault, and never both.
pub fn one_remaining()
    ensures { (facts : SeasonFacts) (state : State) (body : List ℕ)
        → HaveOneAnswer facts state body }
{
    choice_lists::laws::one_reading();
}

/// What is left of protections is within the seats.
pub fn left_is_within()
    ensures { (trait room : ℕ) (counts : List ℕ) (pairs : List Pair)
        → sum (protections_left trait counts pairs room) ≤ room }
{}

/// The final persons of a step of a programme can be put in merit order, from the rows of the programme alone.
pub(crate) fn own_rows_rank()
    ensures { OwnRowsRank }
{}

/// The rows of a programme alone leave of its steps what all rows leave.
pub(crate) fn own_rows_say_all()
    ensures { OwnRowsSayAll }
{}

/// Rows of rising ids have rising ids.
pub(crate) fn ids_rise()
    ensures { (rows : List AllotRow) → Pairwise (λ a b. a.cand.0 < b.cand.0) rows
        → Pairwise (λ a b. a < b) (map (λ row. row.cand.0) rows) }
{}

/// As many whole lists as there are people are what everybody seeks who seeks the whole own list.
pub(crate) fn whole_for_all()
    ensures { (people : List Person) → replicate (length people) Whole ≡ all_whole people }
{}

/// If everybody seeks their whole own list, what they seek is in the lists.
pub(crate) fn whole_seeks_fit()
    ensures { (people : List Person) (lists : Lists) → map (λ held. held.0) lists
        ≡ map (λ person. person.id.0) people → AreSeeks (lists_in lists) (all_whole people) }
{}
