// The laws of rounds, over their definitions alone. Each is the contract of a function that does nothing.
ghost use Rattle.rounds.specs.Rule.{ProgrammesAdmitNoFewer, ProgrammesChooseWell, ProgrammesGrow, StepsChooseWell};
ghost use Rattle.round_laws.specs.Laws.{Enter, FairRoundsSeatAlike, FairWithoutClaims, Market, MoreSeatsHurtNobody, NobodyFalls, OneRound, TruthIsBest, WiderIsNoWorse};

/// The people of a season may enter its rounds, by any matrix of its programmes.
pub fn enter()
    ensures { Enter }
{}

/// Those who enter a round are a market.
pub fn market()
    ensures { Market }
{}

/// The programmes of a matrix choose well.
pub fn choose_well()
    ensures { ProgrammesChooseWell }
{
    open_then_category::laws::chosen_well();
}

/// So they choose before anybody is kept beyond the seats.
pub fn steps_choose_well()
    ensures { StepsChooseWell }
{
    open_then_category::laws::chosen_well();
}

/// From more people they admit no fewer.
pub fn admit_no_fewer()
    ensures { ProgrammesAdmitNoFewer }
{
    open_then_category::laws::chosen_well();
    open_then_category::laws::no_fewer_from_more();
}

/// With no fewer seats, for the same protections, they admit everybody whom they admitted before.
pub fn grow()
    ensures { ProgrammesGrow }
{
    open_then_category::laws::chosen_well();
    open_then_category::laws::grows_with_seats();
}

/// Seats are fair exactly where nobody has a justified claim and each programme keeps those who hold a seat of it.
pub fn fair_without_claims()
    ensures { FairWithoutClaims }
{
    choose_well();
}

/// A round is one.
pub fn one_round()
    ensures { OneRound }
{
    choose_well();
    open_then_category::laws::one_programme_choice();
    open_then_category::laws::admitted_once();
    slot_cert::laws::one_certificate();
}

/// Between fair rounds whose seats only rise and whose seekers only narrow what they want, nobody who remains does worse.
pub fn nobody_falls()
    ensures { NobodyFalls }
{
    choose_well();
    grow();
}

/// Any two fair allocations of a round leave the same persons without a seat, and fill as many seats of each programme.
pub fn fair_rounds_seat_alike()
    ensures { FairRoundsSeatAlike }
{
    choose_well();
    admit_no_fewer();
}

/// Nobody gains in a round by another list or another answer.
pub fn truth_is_best()
    ensures { TruthIsBest }
{
    choose_well();
    admit_no_fewer();
}

/// Who seeks a list up to a place does no worse by that list than by any part of it up to there.
pub fn wider_is_no_worse()
    ensures { WiderIsNoWorse }
{
    choose_well();
    admit_no_fewer();
}

/// With more seats, and where some have left, nobody else does worse in a round.
pub fn more_seats_hurt_nobody()
    ensures { MoreSeatsHurtNobody }
{
    choose_well();
    grow();
}
