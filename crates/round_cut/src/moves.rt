// Requests are answered: what may fail first, then the keeper's put, and then the change, which cannot fail.
ghost use Rattle.std.specs.Prelude.{◌≡◌, ◌<◌, ◌≤◌, true, None, IfOk, OnOk, IsOk, IsErrOf};
ghost use Rattle.office_moves.specs.Decided.{decided};
ghost use Rattle.office_moves.specs.History.{asked, grown, newly};
ghost use Rattle.office_moves.specs.Judge.{is_withdraw};
ghost use Rattle.office_moves.specs.Moves.{IsMove, Tells};
ghost use Rattle.office_moves.specs.Promise.{KeepsItsWord};
ghost use Rattle.office_moves.specs.Stands.{Stand};
ghost use Rattle.office_moves.specs.declared.decide.Decision.TheVariants.{Finish, Lift, Note, Publish, Tell};
ghost use Rattle.office_moves.specs.declared.moves.Act.TheVariants.{Answer, Cut, Raise};
ghost use Rattle.proceedings.specs.Changes.{IsAnswerAt};
ghost use Rattle.proceedings.specs.Proceeding.{last_of};
ghost use Rattle.proceedings.specs.Told.{copies_nothing, takes_nothing};
ghost use Rattle.round_cut.specs.Answering.{Accepts, KeepsOn};
ghost use Rattle.round_cut.specs.Office.{withdraws};

use crate::cut::{MadeCut, make_cut, room_wanted};
use crate::fault::OfficeFault;
use crate::office::Office;
use keeper_mem::Keeper;
use kept_rows::{AnswerRow, RaiseRow};
use office_asks::Request;
use office_base::Choice;
use office_moves::{Decision, Question, Reply};
use std::alloc::Global;

impl<K: Keeper> Office<K> {
    /// Answers a request. What it newly accepts is kept first, under this number, which must be above `last_number`.
    /// After a fault the office and the tables of the keeper are unchanged.
    pub fn handle(
        &mut self,
        alloc: Global,
        number: u64,
        request: &Request,
    ) -> Result<Reply, OfficeFault>
        requires { last_of self.old.entries < number }
        ensures moves { IfOk result (λ reply.
            IsMove self.old.season self.old.state request.now reply self.new.state) }
        ensures entries { OnOk result (self.new.entries ≡ grown self.old.entries number
            (newly self.old.state.now (decided self.old.season self.old.state request.now))) }
        ensures stands { Stand self.new.season self.new.state (K.seen self.new.keeper).tables }
        ensures kept { KeepsOn K.seen self.old self.new result }
        ensures sure { takes_nothing (decided self.old.season self.old.state request.now) ≡ true
            → IsOk result }
        ensures asked { newly self.old.state.now
            (decided self.old.season self.old.state request.now) ≡ None
            → (self.new.keeper ≡ self.old.keeper) × (IsErrOf result OfficeFault.KeeperFault → ⊥) }
        ensures withdraw { (K.seen self.old.keeper).holds_room ≡ true
            → withdraws (decided self.old.season self.old.state request.now) ≡ true
            → IsErrOf result OfficeFault.OutOfMemory → ⊥ }
        ensures word { KeepsItsWord self.new.season self.new.state }
    {
        let _still = self.book.still_in();
        let (decision, at) = self.book.decide(request);
        let answer = match decision {
            Decision::Note(row) => self.accept_answer(number, at, row),
            Decision::Lift(row) => self.accept_raise(number, row),
            Decision::Publish => self.publish_round(alloc, number),
            Decision::Finish => self.finish_season(alloc, number),
            Decision::Tell(question) => self.answer(alloc, request, question),
            known => Ok(self.book.repeat(known)),
        };
        let _entries = self.book.entries();
        answer
    }

    /// Answers the question that a request comes to.
    fn answer(
        &self,
        alloc: Global,
        request: &Request,
        question: Question,
    ) -> Result<Reply, OfficeFault>
        requires { decided self.now.season self.now.state request.now ≡ Tell question }
        ensures reply { IfOk result (λ reply.
            Tells self.now.season self.now.state question reply) }
        ensures sure { copies_nothing question ≡ true → IsOk result }
        ensures memory { IsErrOf result OfficeFault.KeeperFault → ⊥ }
    {
        Ok(self.book.answer(alloc, request, question)?)
    }

    /// Keeps an answer of the candidate at this position of the register, and accepts it.
    #[tactic(auto, using(crate::proofs::Standing::was_told, crate::proofs::Standing::answer_was))]
    fn accept_answer(&mut self, number: u64, at: u32, row: AnswerRow) -> Result<Reply, OfficeFault>
        requires decided { IsAnswerAt self.old.season self.old.state row at }
        requires some { 1 ≤ self.old.still }
        requires number { last_of self.old.entries < number }
        ensures accepts { Accepts number (Note row) (Answer row) self.old self.new result }
        ensures stands { Stand self.new.season self.new.state (K.seen self.new.keeper).tables }
        ensures kept { KeepsOn K.seen self.old self.new result }
        ensures withdraw { (K.seen self.old.keeper).holds_room ≡ true
            → is_withdraw row.choice ≡ true → IsErrOf result OfficeFault.OutOfMemory → ⊥ }
    {
        if row.choice == Choice::Withdraw {
            self.keeper.put_answer(row)?;
            self.book.note(number, at, row);
            return Ok(Reply::of_answer(row));
        }
        let wanted = room_wanted(&self.book);
        self.book.reserve(wanted)?;
        self.keeper.reserve_answers(wanted)?;
        self.keeper.put_answer(row)?;
        self.book.note(number, at, row);
        Ok(Reply::of_answer(row))
    }

    /// Keeps a raise, and accepts it.
    #[tactic(auto, using(crate::proofs::Standing::was_told, crate::proofs::Standing::raise_was))]
    fn accept_raise(&mut self, number: u64, row: RaiseRow) -> Result<Reply, OfficeFault>
        requires decided { decided self.old.season self.old.state
            (asked self.old.season (Raise row)) ≡ Lift row }
        requires number { last_of self.old.entries < number }
        ensures accepts { Accepts number (Lift row) (Raise row) self.old self.new result }
        ensures stands { Stand self.new.season self.new.state (K.seen self.new.keeper).tables }
        ensures kept { KeepsOn K.seen self.old self.new result }
    {
        let wanted = room_wanted(&self.book);
        self.book.reserve(wanted)?;
        self.keeper.put_raise(row)?;
        self.book.lift(number, row);
        Ok(Reply::of_raise(row))
    }

    /// Makes the next round, keeps the cut, and publishes it.
    #[tactic(auto, using(crate::proofs::Standing::was_told, crate::proofs::Standing::cut_was))]
    fn publish_round(&mut self, alloc: Global, number: u64) -> Result<Reply, OfficeFault>
        requires decided { decided self.old.season self.old.state
            (asked self.old.season (Cut self.old.state.now)) ≡ Publish }
        requires number { last_of self.old.entries < number }
        ensures accepts { Accepts number Publish (Cut self.old.state.now) self.old self.new result }
        ensures stands { Stand self.new.season self.new.state (K.seen self.new.keeper).tables }
        ensures kept { KeepsOn K.seen self.old self.new result }
    {
        let _entries = self.book.entries();
        let wanted = room_wanted(&self.book);
        self.book.reserve(wanted)?;
        let MadeCut {
            round,
            rows,
            table,
            seated,
        } = make_cut(alloc, &self.book)?;
        self.keeper.put_cut(rows.as_slice())?;
        let published = round.number;
        self.book.publish(number, round, table);
        Ok(Reply::Published {
            round: published,
            seated,
        })
    }

    /// Makes the final admissions, keeps the last cut, and ends the season.
    #[tactic(auto, using(crate::proofs::Standing::was_told, crate::proofs::Standing::cut_was))]
    fn finish_season(&mut self, alloc: Global, number: u64) -> Result<Reply, OfficeFault>
        requires decided { decided self.old.season self.old.state
            (asked self.old.season (Cut self.old.state.now)) ≡ Finish }
        requires number { last_of self.old.entries < number }
        ensures accepts { Accepts number Finish (Cut self.old.state.now) self.old self.new result }
        ensures stands { Stand self.new.season self.new.state (K.seen self.new.keeper).tables }
        ensures kept { KeepsOn K.seen self.old self.new result }
    {
        let _entries = self.book.entries();
        let wanted = room_wanted(&self.book);
        self.book.reserve(wanted)?;
        let admissions = self.book.final_rows(alloc)?;
        let _people = self.book.season().register.people();
        let admitted = admissions.len() as u32;
        self.keeper.put_cut(admissions.as_slice())?;
        self.book.finish(number, admissions);
        Ok(Reply::Final { admitted })
    }
}
