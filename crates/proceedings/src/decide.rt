// What the office decides about each request, by what it looks up.
ghost use Rattle.std.specs.Prelude.{◌≡◌, ◌<◌, Some, IfSome, length};
ghost use Rattle.rank_lists.specs.Register.{row_of};
ghost use Rattle.seeks.specs.Seek.{is_listed};
ghost use Rattle.office_moves.specs.Facts.{find_programme};
ghost use Rattle.office_moves.specs.State.{view_of};
ghost use Rattle.office_moves.specs.Decided.{answer_facts, decide_answer, decide_list, decide_own, decide_raise, decide_why, decided};
ghost use Rattle.proceedings.specs.Changes.{IsDecided};

use crate::book::Proceedings;
use kept_rows::{AnswerRow, RaiseRow};
use office_asks::{Ask, By, Request};
use office_base::{CandId, Code, ProgId, StepKind};
use office_moves::{
    AnswerFacts, Decision, Question, Refusal, judge_answer, judge_cut, judge_list, judge_own,
    judge_raise, judge_round, judge_why,
};

impl Proceedings {
    /// Decides about a request. With an accepted answer the number is the position of its candidate in the register.
    /// With any other decision it means nothing.
    /// It takes no memory, and nothing changes.
    pub fn decide(&self, request: &Request) -> (Decision, u32)
        ensures { IsDecided self.now.season
            (decided self.now.season self.now.state request.now) result }
    {
        let by = request.by;
        let decision = match request.ask {
            Ask::Answer {
                cand,
                window,
                turn,
                choice,
            } => {
                let row = AnswerRow {
                    window,
                    cand,
                    turn,
                    choice,
                };
                return self.decide_answer(by, row);
            }
            Ask::Cut { window } => judge_cut(by, self.window, self.season.rounds, window),
            Ask::Seat { cand } => self.decide_own(by, cand, Question::Seat { cand }),
            Ask::Why { cand, prog } => self.decide_why(by, cand, prog),
            Ask::List { round, prog } => {
                let question = self.find(prog).map(|prog| Question::List { round, prog });
                judge_list(question, self.published(), round)
            }
            Ask::Round { round } => judge_round(self.window, self.published(), round),
            Ask::Choices { cand } => self.decide_own(by, cand, Question::Choices { cand }),
            Ask::Cutoffs { round, prog } => {
                let question = self
                    .find(prog)
                    .map(|prog| Question::Cutoffs { round, prog });
                judge_list(question, self.published(), round)
            }
            Ask::Register { cand } => self.decide_own(by, cand, Question::Register { cand }),
            Ask::Answers { cand } => self.decide_own(by, cand, Question::Answers { cand }),
            Ask::State => Decision::Tell(Question::State),
            Ask::Raise {
                window,
                prog,
                step,
                seats,
            } => self.decide_raise(by, window, prog, step, seats),
        };
        (decision, 0)
    }

    /// Decides about a question that only the candidate and the clerk may ask.
    fn decide_own(&self, by: By, cand: CandId, question: Question) -> Decision
        ensures { result ≡ decide_own self.now.season by cand question }
    {
        let known = self.season.register.position(cand).is_some();
        judge_own(known, by, cand, question)
    }

    /// Returns the programme of a code. None if and only if no programme has it.
    pub(crate) fn find(&self, code: Code) -> Option<ProgId>
        ensures found { result ≡ find_programme self.now.season code }
        ensures within { IfSome result (λ prog. prog.0 < length self.now.season.matrix.programmes) }
    {
        self.season.matrix.find(code)
    }

    /// Decides about an answer. If it is accepted, the number is the position of its candidate in the register.
    fn decide_answer(&self, by: By, row: AnswerRow) -> (Decision, u32)
        ensures { IsDecided self.now.season
            (decide_answer self.now.season (view_of self.now.state row.cand.0) by row) result }
    {
        match self.season.register.position(row.cand) {
            Some(at) => {
                let looks = self.answer_facts(at as usize, row);
                (judge_answer(&looks, by, row), at)
            }
            None => (Decision::Refuse(Refusal::UnknownCandidate), 0),
        }
    }

    /// Returns what an answer of the candidate at this position is judged by.
    fn answer_facts(&self, at: usize, row: AnswerRow) -> AnswerFacts
        requires within { at < length self.now.season.people }
        requires place { row_of row.cand.0 self.now.season.people ≡ Some at }
        ensures { result ≡ answer_facts self.now.season (view_of self.now.state row.cand.0) row }
    {
        AnswerFacts {
            known: true,
            kept: self.accepted_choice(at, row.window, row.turn),
            window: self.now(),
            rounds: self.season().rounds,
            last: self.last_turn(at),
            left: self.standing_at_cut(at),
            standing: self.standing(at),
            seated: self.last_seat(at).is_some(),
        }
    }

    /// Decides about the question why.
    fn decide_why(&self, by: By, cand: CandId, code: Code) -> Decision
        ensures { result ≡ decide_why self.now.season (view_of self.now.state cand.0) by cand code }
    {
        let known = self.season.register.position(cand).is_some();
        let prog = self.find(code);
        let chosen = match prog {
            Some(prog) => is_listed(self.season.choices.list(cand), prog),
            None => false,
        };
        judge_why(known, prog, chosen, self.published(), by, cand)
    }

    /// Decides about a raise.
    fn decide_raise(&self, by: By, window: u16, code: Code, step: StepKind, seats: u16) -> Decision
        ensures { result ≡ decide_raise self.now.season self.now.state by window code step seats }
    {
        match self.find(code) {
            Some(prog) => {
                let row = RaiseRow {
                    window,
                    prog,
                    step,
                    seats,
                };
                let looks = self.raised.looks(self.window, self.season.rounds, row);
                judge_raise(&looks, by, row)
            }
            None => Decision::Refuse(Refusal::UnknownProgramme),
        }
    }
}

/// Returns whether the programme is one of these.
fn is_listed(list: &[ProgId], prog: ProgId) -> bool
    ensures { result ≡ is_listed prog.0 list.now }
{
    for other in list {
        if *other == prog {
            return true;
        }
    }
    false
}
