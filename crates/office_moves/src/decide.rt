// What a request comes to, from what it is judged by.
ghost use Rattle.std.specs.Prelude.{◌≡◌, ◌≤◌};
ghost use Rattle.office_base.specs.Limits.{most_raised_seats};
ghost use Rattle.office_moves.specs.Judge.{choice_of, judge_answer, judge_cut, judge_list, judge_new_answer, judge_new_seats, judge_next_answer, judge_own, judge_raise, judge_round, judge_why, may_ask, not_open};

use crate::refusal::Refusal;
use kept_rows::{AnswerRow, RaiseRow};
use office_asks::By;
use office_base::limits::{MOST_MATRIX_SEATS, MOST_STEP_SEATS, MOST_TURNS};
use office_base::{CandId, Choice, ProgId, StepKind};
use round_options::{Standing, allowed};

/// What a request comes to. The lists of a programme are not copied before it is known that they are asked for.
#[derive(Clone, Copy, PartialEq, Eq)]
pub enum Decision {
    /// It is refused, and nothing changes.
    Refuse(Refusal),
    /// The answer was accepted before: its receipt again.
    NotedAgain(AnswerRow),
    /// The raise was accepted before.
    RaisedAgain(RaiseRow),
    /// The cut of this window was made before.
    CutAgain { window: u16 },
    /// The answer is accepted.
    Note(AnswerRow),
    /// The raise is accepted.
    Lift(RaiseRow),
    /// The cut is accepted, and publishes the next round.
    Publish,
    /// The cut is accepted, and publishes the final admissions.
    Finish,
    /// The question is answered, and nothing changes.
    Tell(Question),
}

/// What a reply tells, where nothing changes. The sender may ask it, and what it names exists.
#[derive(Clone, Copy, PartialEq, Eq)]
pub enum Question {
    /// The seat of the candidate.
    Seat { cand: CandId },
    /// Why the candidate has no seat of the programme, or has one.
    Why { cand: CandId, prog: ProgId },
    /// The lists of the programme in the round.
    List { round: u16, prog: ProgId },
    /// What was published under the number: the round, or the final admissions.
    Round { round: u16 },
    /// The choice list of the candidate.
    Choices { cand: CandId },
    /// The cutoffs of the programme in the round.
    Cutoffs { round: u16, prog: ProgId },
    /// What the register has of the candidate.
    Register { cand: CandId },
    /// The accepted answers of the candidate, in all windows.
    Answers { cand: CandId },
    /// How far the office is.
    State,
}

/// What an answer is judged by.
#[derive(Clone, Copy)]
pub struct AnswerFacts {
    /// The candidate is in the register.
    pub known: bool,
    /// The choice that was accepted at this window and turn.
    pub kept: Option<Choice>,
    /// The window that is open.
    pub window: u16,
    /// The rounds of the season.
    pub rounds: u16,
    /// The last accepted turn of the open window, 0 where there is none.
    pub last: u16,
    /// How the last cut left the candidate.
    pub left: Standing,
    /// The standing of the candidate with the answers of the open window.
    pub standing: Standing,
    /// The candidate has a seat in the last published round.
    pub seated: bool,
}

/// What a raise of a programme of the matrix is judged by.
#[derive(Clone, Copy)]
pub struct RaiseFacts {
    /// This very raise was accepted.
    pub again: bool,
    /// The window that is open.
    pub window: u16,
    /// The rounds of the season.
    pub rounds: u16,
    /// The present seats of the step.
    pub seats: u16,
    /// The present seats of all steps.
    pub total: u32,
}

/// What an answer comes to. It takes no memory.
pub fn judge_answer(looks: &AnswerFacts, by: By, row: AnswerRow) -> Decision
    ensures { result ≡ judge_answer looks.now by row }
{
    if !looks.known {
        return Decision::Refuse(Refusal::UnknownCandidate);
    }
    if by != By::Candidate(row.cand) {
        return Decision::Refuse(Refusal::Denied { rule: 1 });
    }
    if let Some(kept) = looks.kept {
        if kept == row.choice {
            return Decision::NotedAgain(row);
        }
        return Decision::Refuse(Refusal::TurnUsed { kept });
    }
    judge_new_answer(looks, row)
}

/// What an answer of its candidate comes to, whose turn was not accepted before.
fn judge_new_answer(looks: &AnswerFacts, row: AnswerRow) -> Decision
    ensures { result ≡ judge_new_answer looks.now row }
{
    if let Some(refusal) = not_open(looks.window, looks.rounds, row.window) {
        return Decision::Refuse(refusal);
    }
    if u32::from(row.turn) != u32::from(looks.last) + 1 {
        return Decision::Refuse(Refusal::Gap { last: looks.last });
    }
    judge_next_answer(looks, row)
}

/// What the next answer of the open window comes to.
fn judge_next_answer(looks: &AnswerFacts, row: AnswerRow) -> Decision
    ensures { result ≡ judge_next_answer looks.now row }
{
    let leaves = row.choice == Choice::Withdraw;
    if matches!(looks.standing, Standing::Withdrawn | Standing::NoShow) {
        return Decision::Refuse(Refusal::Gone {
            how: looks.standing,
        });
    }
    if !looks.seated && !leaves {
        return Decision::Refuse(Refusal::NoSeat);
    }
    if !allowed(looks.left, row.choice) {
        return Decision::Refuse(Refusal::Widening {
            standing: choice_of(looks.left),
        });
    }
    if MOST_TURNS < row.turn && !leaves {
        return Decision::Refuse(Refusal::TooManyTurns);
    }
    Decision::Note(row)
}

/// What a cut comes to, by the window that is open and the rounds of the season. It takes no memory.
pub fn judge_cut(by: By, now: u16, rounds: u16, window: u16) -> Decision
    ensures { result ≡ judge_cut by now rounds window }
{
    if by != By::Clerk {
        return Decision::Refuse(Refusal::Denied { rule: 2 });
    }
    if window < now {
        return Decision::CutAgain { window };
    }
    if now < window || rounds < window {
        return Decision::Refuse(Refusal::Ahead { now });
    }
    if window == rounds {
        return Decision::Finish;
    }
    Decision::Publish
}

/// Returns what comes of a question that only the candidate and the clerk may ask. The candidate is known or not.
/// It takes no memory.
pub fn judge_own(known: bool, by: By, cand: CandId, question: Question) -> Decision
    ensures { result ≡ judge_own known by cand question }
{
    if !known {
        return Decision::Refuse(Refusal::UnknownCandidate);
    }
    if !may_ask(by, cand) {
        return Decision::Refuse(Refusal::Denied { rule: 3 });
    }
    Decision::Tell(question)
}

/// What comes of asking why, by whether the candidate is known, the programme of the code, whether it is on the candidate's choice list, and how
/// many rounds are published. It takes no memory.
pub fn judge_why(
    known: bool,
    prog: Option<ProgId>,
    chosen: bool,
    published: u16,
    by: By,
    cand: CandId,
) -> Decision
    ensures { result ≡ judge_why known prog chosen published by cand }
{
    if !known {
        return Decision::Refuse(Refusal::UnknownCandidate);
    }
    let Some(prog) = prog else {
        return Decision::Refuse(Refusal::UnknownProgramme);
    };
    if !may_ask(by, cand) {
        return Decision::Refuse(Refusal::Denied { rule: 3 });
    }
    if !chosen {
        return Decision::Refuse(Refusal::NotChosen);
    }
    if published == 0 {
        return Decision::Refuse(Refusal::NoSuchRound { published });
    }
    Decision::Tell(Question::Why { cand, prog })
}

/// Returns what comes of a question about a programme in a round, by how many rounds are published.
/// Without a programme of the asked code there is no question. It takes no memory.
pub fn judge_list(question: Option<Question>, published: u16, round: u16) -> Decision
    ensures { result ≡ judge_list question published round }
{
    let Some(question) = question else {
        return Decision::Refuse(Refusal::UnknownProgramme);
    };
    if round == 0 || published < round {
        return Decision::Refuse(Refusal::NoSuchRound { published });
    }
    Decision::Tell(question)
}

/// Returns what comes of asking for what was published under a number, by the cuts that were made and the rounds that are published.
/// Each cut published a text: of the next round, or of the final admissions. It takes no memory.
pub fn judge_round(cuts: u16, published: u16, round: u16) -> Decision
    ensures { result ≡ judge_round cuts published round }
{
    if round == 0 || cuts < round {
        return Decision::Refuse(Refusal::NoSuchRound { published });
    }
    Decision::Tell(Question::Round { round })
}

/// What a raise comes to. It takes no memory.
pub fn judge_raise(looks: &RaiseFacts, by: By, row: RaiseRow) -> Decision
    requires few { looks.now.seats ≤ looks.now.total }
    requires all { looks.now.total ≤ most_raised_seats }
    ensures { result ≡ judge_raise looks.now by row }
{
    if by != By::Clerk {
        return Decision::Refuse(Refusal::Denied { rule: 4 });
    }
    if looks.again {
        return Decision::RaisedAgain(row);
    }
    if let Some(refusal) = not_open(looks.window, looks.rounds, row.window) {
        return Decision::Refuse(refusal);
    }
    if row.window == looks.rounds {
        return Decision::Refuse(Refusal::LastWindow);
    }
    judge_new_seats(looks, row)
}

/// What a raise of the open window comes to, by its seats.
fn judge_new_seats(looks: &RaiseFacts, row: RaiseRow) -> Decision
    requires few { looks.now.seats ≤ looks.now.total }
    requires all { looks.now.total ≤ most_raised_seats }
    ensures { result ≡ judge_new_seats looks.now row }
{
    if row.step == StepKind::Dereserved {
        return Decision::Refuse(Refusal::StepFixed);
    }
    if row.seats <= looks.seats {
        return Decision::Refuse(Refusal::Falling { seats: looks.seats });
    }
    let seats = u32::from(row.seats);
    let all = looks.total - u32::from(looks.seats) + seats;
    if MOST_STEP_SEATS < seats || MOST_MATRIX_SEATS < all {
        return Decision::Refuse(Refusal::SeatLimit { total: looks.total });
    }
    Decision::Lift(row)
}

/// The refusal of a window that is over, or not open yet, or none of the season.
fn not_open(now: u16, rounds: u16, window: u16) -> Option<Refusal>
    ensures { result ≡ not_open now rounds window }
{
    if window < now {
        return Some(Refusal::Late { now });
    }
    if now < window || rounds < window {
        return Some(Refusal::Ahead { now });
    }
    None
}

/// Returns whether this sender may ask about a candidate.
fn may_ask(by: By, cand: CandId) -> bool
    ensures { result ≡ may_ask by cand }
{
    by == By::Clerk || by == By::Candidate(cand)
}

/// Returns the answer that led to a standing. A waiting candidate has given none, and gets another refusal before.
fn choice_of(standing: Standing) -> Choice
    ensures { result ≡ choice_of standing }
{
    match standing {
        Standing::Freeze => Choice::Freeze,
        Standing::Slide => Choice::Slide,
        Standing::Withdrawn | Standing::NoShow => Choice::Withdraw,
        Standing::Waiting | Standing::Offered | Standing::Float => Choice::Float,
    }
}
