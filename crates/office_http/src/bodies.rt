// The bodies of replies. Those of a published round and of the final admissions are made once.
ghost use Rattle.std.specs.Prelude.{◌≡◌, IfOk, IfSome, option_copied};
ghost use Rattle.office_http.specs.Bodies.{AreBodies, IsShownBy, shown_body};
ghost use Rattle.office_moves.specs.Facts.{SeasonFacts};
ghost use Rattle.office_moves.specs.State.{State};
ghost use Rattle.shown_replies.specs.Shown.{CanBeShown};

use keeper_mem::Keeper;
use office_base::{OutOfMemory, Text};
use office_moves::Reply;
use reply_bodies::reply_json;
use round_cut::Office;
use shown_replies::{shown_round, shown_rows};
use std::alloc::Global;

/// The body of the question for a round or for the final admissions, and the number that was asked for.
#[derive(Drop)]
pub struct RoundBody {
    number: u16,
    body: Text,
}

/// The bodies of the published rounds and of the final admissions that were asked for. A body is made at the first
/// question for its number and copied at the others, because what is published under a number never changes.
#[derive(Drop)]
pub struct Bodies {
    made: Vec<RoundBody>,
}

impl Bodies {
    /// Has no body yet. It allocates nothing.
    pub fn new(alloc: Global) -> Bodies
        ensures { (facts : SeasonFacts) (state : State) → AreBodies facts state result }
    {
        Bodies {
            made: Vec::new(alloc),
        }
    }

    /// Returns the body of the question for this number, if it was kept.
    fn body_of(&self, number: u16) -> Option<&Text>
        ensures { (facts : SeasonFacts) (state : State) → AreBodies facts state self.now
            → IfSome (option_copied result) (IsShownBy facts state number) }
    {
        for made in self.made.as_slice() {
            if made.number == number {
                return Some(&made.body);
            }
        }
        None
    }

    /// Keeps the body of the question for this number. If memory runs out it is not kept, and made again at the next question.
    fn keep(&mut self, number: u16, body: Text)
        ensures { (facts : SeasonFacts) (state : State) → AreBodies facts state self.old
            → IsShownBy facts state number body → AreBodies facts state self.new }
    {
        let _ = self.made.push(RoundBody { number, body });
    }
}

/// Returns the body of a reply that can be shown in the office's state.
#[tactic(auto, unfolding(shown_replies::specs::Shown::CanBeShown))]
fn made_body<K: Keeper>(
    alloc: Global,
    office: &Office<K>,
    reply: &Reply,
) -> Result<Text, OutOfMemory>
    requires { CanBeShown office.now.season office.now.state reply.now }
    ensures { IfOk result (λ text.
        text ≡ shown_body office.now.season office.now.state reply.now) }
{
    let season = office.season();
    let round = shown_round(office.book(), reply);
    let rows = shown_rows(office.book());
    reply_json(alloc, season, round, rows, reply)
}

/// Returns the body of the question for this number: a copy, if it was kept before.
/// It is kept once the round is published, or the last cut was made.
fn round_body<K: Keeper>(
    alloc: Global,
    office: &Office<K>,
    bodies: &mut Bodies,
    number: u16,
    reply: &Reply,
) -> Result<Text, OutOfMemory>
    requires of { reply.now ≡ Reply.RoundIs number }
    requires shown { CanBeShown office.now.season office.now.state reply.now }
    requires made { AreBodies office.now.season office.now.state bodies.old }
    ensures body { IfOk result (λ text.
        text ≡ shown_body office.now.season office.now.state reply.now) }
    ensures made { AreBodies office.now.season office.now.state bodies.new }
{
    if let Some(body) = bodies.body_of(number) {
        return body.copy(alloc);
    }
    let body = made_body(alloc, office, reply)?;
    if office.round(number).is_none() && office.now() <= office.season().rounds {
        return Ok(body);
    }
    if let Ok(copy) = body.copy(alloc) {
        bodies.keep(number, copy);
    }
    Ok(body)
}

/// Returns the body of a reply that can be shown in the office's state.
pub(crate) fn body_of_reply<K: Keeper>(
    alloc: Global,
    office: &Office<K>,
    bodies: &mut Bodies,
    reply: &Reply,
) -> Result<Text, OutOfMemory>
    requires shown { CanBeShown office.now.season office.now.state reply.now }
    requires made { AreBodies office.now.season office.now.state bodies.old }
    ensures body { IfOk result (λ text.
        text ≡ shown_body office.now.season office.now.state reply.now) }
    ensures made { AreBodies office.now.season office.now.state bodies.new }
{
    match reply {
        Reply::RoundIs { round } => round_body(alloc, office, bodies, *round, reply),
        _ => made_body(alloc, office, reply),
    }
}
