// An ask with its token, put to an office.
ghost use Rattle.std.specs.Prelude.{◌≡◌, ◌<◌, ◌↔◌, option_copied};
ghost use Rattle.kept_rows.specs.Tables.{IsTold};
ghost use Rattle.office_http.specs.Asking.{AsksOffice, IsAnswerOf, request_of, token_of};
ghost use Rattle.office_http.specs.Bodies.{AreBodies};
ghost use Rattle.office_http.specs.Keeping.{SettlesOffice};
ghost use Rattle.proceedings.specs.Proceeding.{last_of};
ghost use Rattle.shown_replies.specs.Shown.{CameOf};

use crate::bodies::{Bodies, body_of_reply};
use http::StatusCode;
use http_sessions::Answered;
use http_wire::Fault;
use keeper_mem::Keeper;
use office_asks::{Ask, By, Request};
use office_moves::Reply;
use reply_bodies::status_of;
use round_cut::{Office, OfficeFault};
use season_facts::says_what_is_sound;
use shown_replies::laws::replies_can_be_shown;
use std::alloc::Global;

/// Returns a token in two parts: whether there is one, and its bytes.
pub fn token_parts(token: Option<&[u8]>) -> (bool, &[u8])
    ensures { option_copied token.entry ≡ token_of result.0 result.1.now }
{
    match token {
        Some(bytes) => (true, bytes),
        None => (false, b"".as_slice()),
    }
}

/// Puts an ask with its token to an office. The token has two parts: whether there is one, and its bytes.
/// What is newly accepted has this number, which must be above the last one.
/// The status and the body are those of the reply. If memory runs out for the body, what was asked is done all the same.
/// It returns `Fault::Keeper` only if the keeper failed in this call, and `Fault::Memory` if it did not.
/// Both leave the office and the visible tables of its keeper unchanged.
/// The bodies of a published round and of the final admissions are made once, and copied from then on.
pub fn put_to_office<K: Keeper>(
    alloc: Global,
    office: &mut Office<K>,
    bodies: &mut Bodies,
    number: u64,
    has_token: bool,
    token: &[u8],
    ask: &Ask,
) -> Result<Answered, Fault>
    requires number { last_of office.old.entries < number }
    requires made { AreBodies office.old.season office.old.state bodies.old }
    ensures made { AreBodies office.new.season office.new.state bodies.new }
    ensures asked { AsksOffice K.seen number (token_of has_token token.now)
        ask.now result office.old office.new }
    ensures told_before { IsTold (K.seen office.new.keeper).tables
        → IsTold (K.seen office.old.keeper).tables }
{
    let _entries = office.entries();
    let request = request_by(office, has_token, token, ask);
    match office.handle(alloc, number, &request) {
        Ok(reply) => Ok(answer_of(alloc, office, bodies, &reply)),
        Err(fault) => Err(told_fault(fault)),
    }
}

/// Keeps what waits of an office, unless nothing does. It accepts nothing.
/// After a fault what waited still waits, and a crash may take it back.
pub(crate) fn settle_office<K: Keeper>(office: &mut Office<K>) -> Result<(), Fault>
    ensures { SettlesOffice K.seen result office.old office.new }
{
    if office.is_settled() {
        return Ok(());
    }
    match office.settle() {
        Ok(()) => Ok(()),
        Err(fault) => Err(told_fault(fault)),
    }
}

/// Returns the fault of an office as it is told to those who ask.
pub(crate) fn told_fault(fault: OfficeFault) -> Fault
    ensures keeper { (result ≡ Fault.Keeper) ↔ (fault ≡ OfficeFault.KeeperFault) }
    ensures memory { (result ≡ Fault.Memory) ↔ (fault ≡ OfficeFault.OutOfMemory) }
{
    match fault {
        OfficeFault::KeeperFault => Fault::Keeper,
        OfficeFault::OutOfMemory => Fault::Memory,
    }
}

/// Returns who asks what, by a token in two parts. It allocates nothing.
fn request_by<K: Keeper>(office: &Office<K>, has_token: bool, token: &[u8], ask: &Ask) -> Request
    ensures { result ≡ request_of office.now.season (token_of has_token token.now) ask.now }
{
    let by = if has_token {
        office.who(Some(token))
    } else {
        By::Nobody
    };
    Request { by, ask: *ask }
}

/// Returns the status and the body of a reply that led to the office's state.
fn answer_of<K: Keeper>(
    alloc: Global,
    office: &Office<K>,
    bodies: &mut Bodies,
    reply: &Reply,
) -> Answered
    requires came { CameOf office.now.season office.now.state reply.now }
    requires made { AreBodies office.now.season office.now.state bodies.old }
    ensures answer { IsAnswerOf office.now.season office.now.state reply.now result }
    ensures made { AreBodies office.now.season office.now.state bodies.new }
{
    let Ok(status) = StatusCode::from_u16(status_of(reply)) else {
        unreachable!("it is a status")
    };
    let _entries = office.entries();
    history_laws::laws::orderly();
    replies_can_be_shown();
    says_what_is_sound(office.season());
    let body = body_of_reply(alloc, office, bodies, reply);
    Answered { status, body }
}
