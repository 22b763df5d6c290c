// Why a candidate has no seat of a programme in the last published round, or has one.
ghost use Rattle.std.specs.Prelude.{◌≡◌, ◌<◌, Some, length, slice_get};
ghost use Rattle.office_base.specs.Person.{at_person};
ghost use Rattle.rank_lists.specs.Register.{find_person, row_of};
ghost use Rattle.office_moves.specs.State.{round_at};
ghost use Rattle.office_moves.specs.Why.{is_sought_by, reason_in, why_answer, why_beside, why_refused};
ghost use Rattle.proceedings.specs.LastRound.{IsLastRound};

use crate::book::Proceedings;
use cut_arrays::place_of;
use office_base::{CandId, ProgId, Seat};
use reasons::{Reason, WhyAnswer};
use rounds::Round;
use seeks::is_sought;

impl Proceedings {
    /// The answer to why, for the candidate at this position, by the last published round.
    pub(crate) fn why_answer(&self, at: usize, cand: CandId, prog: ProgId) -> WhyAnswer
        requires within { at < length self.now.season.people }
        requires place { row_of cand.0 self.now.season.people ≡ Some at }
        requires programme { prog.0 < length self.now.season.matrix.programmes }
        requires published { 0 < length self.now.state.rounds }
        ensures { result ≡ why_answer self.now.season
            (round_at self.now.state.rounds (length self.now.state.rounds)) cand prog }
    {
        let Some(round) = self.rounds.last() else {
            unreachable!("a round is published")
        };
        self.why_beside(round, at, cand, prog, self.last_seat(at))
    }

    /// The answer by the seat that the candidate has.
    fn why_beside(
        &self,
        round: &Round,
        at: usize,
        cand: CandId,
        prog: ProgId,
        seat: Option<Seat>,
    ) -> WhyAnswer
        requires last { IsLastRound self.now.season self.now.state round.now }
        requires within { at < length self.now.season.people }
        requires place { row_of cand.0 self.now.season.people ≡ Some at }
        requires programme { prog.0 < length self.now.season.matrix.programmes }
        ensures { result ≡ why_beside self.now.season round.now cand prog seat }
    {
        match seat {
            None => self.why_refused(round, at, cand, prog),
            Some(seat) => {
                let list = self.season.choices.list(cand);
                if seat.prog == prog {
                    WhyAnswer::Reason(Reason::Admitted(seat.step))
                } else if place_of(list, seat.prog) < place_of(list, prog) {
                    WhyAnswer::Better(seat.prog)
                } else {
                    self.why_refused(round, at, cand, prog)
                }
            }
        }
    }

    /// Returns the answer for a candidate who does not hold the programme: that it was not sought, or the reason.
    fn why_refused(&self, round: &Round, at: usize, cand: CandId, prog: ProgId) -> WhyAnswer
        requires last { IsLastRound self.now.season self.now.state round.now }
        requires within { at < length self.now.season.people }
        requires place { row_of cand.0 self.now.season.people ≡ Some at }
        requires programme { prog.0 < length self.now.season.matrix.programmes }
        ensures { result ≡ why_refused self.now.season round.now cand prog }
    {
        if self.is_sought(round, at, cand, prog) {
            WhyAnswer::Reason(self.reason(round, at, cand, prog))
        } else {
            WhyAnswer::NotSought
        }
    }

    /// Whether the candidate at this position sought the programme in the round.
    fn is_sought(&self, round: &Round, at: usize, cand: CandId, prog: ProgId) -> bool
        requires last { IsLastRound self.now.season self.now.state round.now }
        requires within { at < length self.now.season.people }
        requires place { row_of cand.0 self.now.season.people ≡ Some at }
        ensures { result ≡ is_sought_by self.now.season cand prog
            (at_person cand.0 self.now.season.people round.now.seeks) }
    {
        let seek = round.seeks.as_slice()[at];
        let list = self.season.choices.list(cand);
        is_sought(&self.season.matrix, seek, list, prog)
    }

    /// The reason that the programme gives the candidate at this position, by its lists in the round.
    fn reason(&self, round: &Round, at: usize, cand: CandId, prog: ProgId) -> Reason
        requires last { IsLastRound self.now.season self.now.state round.now }
        requires within { at < length self.now.season.people }
        requires place { row_of cand.0 self.now.season.people ≡ Some at }
        requires programme { prog.0 < length self.now.season.matrix.programmes }
        ensures { reason_in self.now.season prog (slice_get round.now.programmes prog.0)
            (find_person cand.0 self.now.season.people) ≡ WhyAnswer.Reason result }
    {
        let programme = &round.programmes.as_slice()[usize::from(prog.0)];
        let season = self.season();
        explain::why(
            &season.matrix,
            prog,
            programme,
            &season.register.people()[at],
        )
    }
}
