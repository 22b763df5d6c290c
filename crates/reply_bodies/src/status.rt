// The status of each reply over HTTP.
ghost use Rattle.std.specs.Prelude.{◌≡◌};
ghost use Rattle.http.specs.StatusCode.{IsStatusCode};
ghost use Rattle.reply_bodies.specs.Status.{refusal_status, status_of};

use office_moves::{Refusal, Reply};

/// Returns the status of a reply: 200 for each but a refusal, and 403, 404 or 409 for a refusal.
pub fn status_of(reply: &Reply) -> u16
    ensures value { result ≡ status_of reply.now }
    ensures valid { IsStatusCode result }
{
    match reply {
        Reply::Refused(refusal) => refusal_status(*refusal),
        _ => 200,
    }
}

/// Returns the status of a refusal: 403 if the one who asks may not; 404 if there is no such candidate, programme,
/// choice or round; otherwise 409.
fn refusal_status(refusal: Refusal) -> u16
    ensures value { result ≡ refusal_status refusal }
    ensures valid { IsStatusCode result }
{
    match refusal {
        Refusal::Denied { .. } => 403,
        Refusal::UnknownCandidate
        | Refusal::UnknownProgramme
        | Refusal::NotChosen
        | Refusal::NoSuchRound { .. } => 404,
        _ => 409,
    }
}
