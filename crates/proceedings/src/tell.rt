// The replies to requests that change nothing.
ghost use Rattle.std.specs.Prelude.{◌≡◌, ◌<◌, ◌≤◌, Some, true, length, IfOk, IsOk};
ghost use Rattle.office_base.specs.CategorySteps.{all_steps};
ghost use Rattle.office_moves.specs.Decided.{decided, is_known};
ghost use Rattle.office_moves.specs.Moves.{Does, Tells, programme_in, receipt, seat_reply, told_seat, why_reply};
ghost use Rattle.office_moves.specs.State.{round_at, view_of};
ghost use Rattle.office_moves.specs.declared.decide.Question.TheVariants.{Answers as TheAnswers, Cutoffs as TheCutoffs};
ghost use Rattle.proceedings.specs.Told.{copies_nothing, is_repeat};

use crate::book::Proceedings;
use list_cutoffs::cutoffs_in;
use office_asks::Request;
use office_base::{CandId, Listed, OutOfMemory, ProgId, Seat};
use office_moves::{Decision, Question, Reply};
use programme_lists::Programme;
use round_options::Standing;
use std::alloc::Global;

impl Proceedings {
    /// Returns the reply to a request that is refused, or that was accepted before.
    /// Nothing changes, and it takes no memory.
    pub fn repeat(&self, decision: Decision) -> Reply
        requires { is_repeat decision ≡ true }
        ensures { Does self.now.season self.now.state decision result self.now.state }
    {
        match decision {
            Decision::Refuse(refusal) => Reply::Refused(refusal),
            Decision::NotedAgain(row) => Reply::of_answer(row),
            Decision::RaisedAgain(row) => Reply::of_raise(row),
            Decision::CutAgain { window } => self.receipt(window),
            Decision::Note(_)
            | Decision::Lift(_)
            | Decision::Publish
            | Decision::Finish
            | Decision::Tell(_) => unreachable!("it was not accepted before"),
        }
    }

    /// Answers the question that a request comes to. Nothing changes.
    /// It takes memory only for a reply that lists what is asked for.
    pub fn answer(
        &self,
        alloc: Global,
        request: &Request,
        question: Question,
    ) -> Result<Reply, OutOfMemory>
        requires { decided self.now.season self.now.state request.now ≡ Decision.Tell question }
        ensures reply { IfOk result (λ reply.
            Tells self.now.season self.now.state question reply) }
        ensures sure { copies_nothing question ≡ true → IsOk result }
    {
        match question {
            Question::Seat { cand } => Ok(self.seat_reply(cand)),
            Question::Why { cand, prog } => Ok(self.why_reply(cand, prog)),
            Question::List { round, prog } => {
                let programme = self.shown(round, prog).copy(alloc)?;
                Ok(Reply::ListIs {
                    round,
                    prog,
                    programme,
                })
            }
            Question::Round { round } => Ok(Reply::RoundIs { round }),
            Question::Choices { cand } => {
                let mut progs = Listed::new(alloc);
                progs.extend_from_slice(self.season.choices.list(cand))?;
                Ok(Reply::ChoicesAre { cand, progs })
            }
            Question::Cutoffs { round, prog } => self.cutoffs(alloc, round, prog),
            Question::Register { cand } => {
                let Some(person) = self.season.register.person(cand) else {
                    unreachable!("the candidate is known")
                };
                Ok(Reply::RegisterIs { person: *person })
            }
            Question::Answers { cand } => self.answer_list(alloc, cand),
            Question::State => Ok(Reply::StateIs {
                now: self.now(),
                rounds: self.season().rounds,
                published: self.published(),
            }),
        }
    }

    /// Lists the cutoffs of a programme in a published round.
    fn cutoffs(&self, alloc: Global, round: u16, prog: ProgId) -> Result<Reply, OutOfMemory>
        requires some { 0 < round }
        requires published { round ≤ length self.now.state.rounds }
        requires programme { prog.0 < length self.now.season.matrix.programmes }
        ensures { IfOk result (λ reply.
            Tells self.now.season self.now.state (TheCutoffs round prog) reply) }
    {
        history_laws::laws::lists_hold_choices();
        let seats = self.season.matrix.programme(prog);
        let lines = cutoffs_in(alloc, &seats, self.shown(round, prog))?;
        Ok(Reply::CutoffsAre { round, prog, lines })
    }

    /// Lists the accepted answers of a candidate.
    fn answer_list(&self, alloc: Global, cand: CandId) -> Result<Reply, OutOfMemory>
        requires { is_known self.now.season cand ≡ true }
        ensures { IfOk result (λ reply.
            Tells self.now.season self.now.state (TheAnswers cand) reply) }
    {
        let Some(at) = self.season.register.position(cand) else {
            unreachable!("the candidate is known")
        };
        let rows = self.answers(alloc, at as usize, cand)?;
        Ok(Reply::AnswersAre { cand, rows })
    }

    /// The lists of a programme in a published round.
    fn shown(&self, number: u16, prog: ProgId) -> &Programme
        requires some { 0 < number }
        requires published { number ≤ length self.now.state.rounds }
        requires programme { prog.0 < length self.now.season.matrix.programmes }
        ensures lists { programme_in (round_at self.now.state.rounds number) prog.0
            ≡ Some result.now }
        ensures steps { length result.now.steps ≡ length all_steps }
    {
        let _ = &self.season;
        match self.round(number) {
            Some(round) => &round.programmes.as_slice()[usize::from(prog.0)],
            None => unreachable!("the round is published"),
        }
    }

    /// The receipt of the cut of a window that is over.
    fn receipt(&self, window: u16) -> Reply
        ensures { result ≡ receipt self.now.season self.now.state window }
    {
        if window < self.season.rounds {
            let round = window + 1;
            let seated = match self.round(round) {
                Some(made) => made.seated() as u32,
                None => 0,
            };
            Reply::Published { round, seated }
        } else {
            let admitted = match self.finals() {
                Some(rows) => rows.len() as u32,
                None => 0,
            };
            Reply::Final { admitted }
        }
    }

    /// Returns the standing of a candidate, with the seat of the last published round.
    fn seat_reply(&self, cand: CandId) -> Reply
        requires { is_known self.now.season cand ≡ true }
        ensures { result ≡ seat_reply self.now.season (view_of self.now.state cand.0) cand }
    {
        let Some(at) = self.season.register.position(cand) else {
            unreachable!("the candidate is known")
        };
        let at = at as usize;
        let standing = self.standing(at);
        Reply::SeatIs {
            cand,
            round: self.published(),
            standing,
            seat: told_seat(standing, self.last_seat(at)),
        }
    }

    /// Why a candidate has no seat of a programme in the last published round, or has one.
    fn why_reply(&self, cand: CandId, prog: ProgId) -> Reply
        requires known { is_known self.now.season cand ≡ true }
        requires programme { prog.0 < length self.now.season.matrix.programmes }
        requires published { 0 < length self.now.state.rounds }
        ensures { result ≡ why_reply self.now.season (view_of self.now.state cand.0) cand prog }
    {
        let Some(at) = self.season.register.position(cand) else {
            unreachable!("the candidate is known")
        };
        Reply::WhyIs {
            cand,
            prog,
            answer: self.why_answer(at as usize, cand, prog),
        }
    }
}

/// Returns the seat that a reply gives: the candidate's seat if they are offered it or keep it, otherwise none.
fn told_seat(standing: Standing, seat: Option<Seat>) -> Option<Seat>
    ensures { result ≡ told_seat standing seat }
{
    match standing {
        Standing::Offered | Standing::Freeze | Standing::Float | Standing::Slide => seat,
        Standing::Waiting | Standing::Withdrawn | Standing::NoShow => None,
    }
}
