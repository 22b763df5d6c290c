// Worked scripts: each is the contract of a function that does nothing.
ghost use Rattle.season_trials.specs.Causes.{CausesAreTold};
ghost use Rattle.season_trials.specs.FiveCandidates.{BeforeTheFirstRound, EverybodyMovesUp, NoShowIsLost, SeatsRise, SlideStays, Turns};

/// Before the first round nobody has a seat, and a withdrawal is final.
pub fn before_the_first_round()
    ensures { BeforeTheFirstRound }
{}

/// One withdraws, and each of the others moves up; the cuts again give their receipts.
pub fn everybody_moves_up()
    ensures { EverybodyMovesUp }
{}

/// States that a candidate who slides stays in the institute of their seat, and may not float afterwards.
pub fn slide_stays_in_the_institute()
    ensures { SlideStays }
{}

/// States that a first seat without an answer is lost, that a candidate who waits stays in, and that the last cut
/// gives the final rows.
pub fn no_show_is_lost()
    ensures { NoShowIsLost }
{}

/// Turns used, late, ahead, out of order, too many, and the last withdrawal.
pub fn turns()
    ensures { Turns }
{}

/// Seats of a step rise before a cut.
pub fn seats_rise()
    ensures { SeatsRise }
{}

/// States that anyone who asks why gets the reason of the lists, or why the question is refused.
pub fn causes_are_told()
    ensures { CausesAreTold }
{}
