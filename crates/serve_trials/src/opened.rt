// An office to be asked, and the messages that ask it.
ghost use Rattle.std.specs.Prelude.{◌≡◌, IfSome, []};
ghost use Rattle.season_file.specs.Season.{IsSeason};

use keeper_mem::MemKeeper;
use office_base::Text;
use office_links::MemLink;
use request_rows::Script;
use round_cut::Office;
use season_file::Season;
use std::alloc::Global;

/// The season of five candidates.
const SEASON: &str =
    "office bundle 1\n[season]\nrounds,2\nclerk,clerk0001\n[register]\nid,category,traits,token,m1,m2,m3,m4\n1,GEN,-,tok00001,1\n2,GEN,-,tok00002,2\n3,GEN,-,tok00003,3\n4,GEN,-,tok00004,4\n5,GEN,-,tok00005,5\n[matrix]\nprogramme,institute,list,step,seats,W,D,X,S,F,L\nA,I1,1,OPEN,1\nB,I2,1,OPEN,1\nC,I2,1,OPEN,1\nE,I3,1,OPEN,1\n[choices]\ncandidate,programmes\n1,A\n2,A,B\n3,B,C\n4,C,E\n5,E\n";

/// It asks how far the office is.
pub const STATE: &str = "GET /v1/state HTTP/1.1\r\n\r\n";

/// Candidate 1 leaves.
pub const LEAVE: &str =
    "POST /v1/answer HTTP/1.1\r\nX-Office-Token: tok00001\r\nContent-Length: 50\r\n\r\n{\"cand\":1,\"window\":0,\"turn\":1,\"choice\":\"withdraw\"}";

/// The clerk gives programme A a second seat.
pub const RAISE: &str =
    "POST /v1/raise HTTP/1.1\r\nX-Office-Token: clerk0001\r\nContent-Length: 52\r\n\r\n{\"window\":0,\"programme\":\"A\",\"step\":\"OPEN\",\"seats\":2}";

/// The clerk ends window 0.
pub const CUT: &str =
    "POST /v1/cut HTTP/1.1\r\nX-Office-Token: clerk0001\r\nContent-Length: 12\r\n\r\n{\"window\":0}";

/// The reply to the first of these.
pub const AT_FIRST: &str =
    "HTTP/1.1 200 OK\r\nContent-Type: application/json\r\nContent-Length: 50\r\n\r\n{\"now\":0,\"published\":0,\"reply\":\"state\",\"rounds\":2}";

/// The reply to the second.
pub const LEFT: &str =
    "HTTP/1.1 200 OK\r\nContent-Type: application/json\r\nContent-Length: 66\r\n\r\n{\"cand\":1,\"choice\":\"withdraw\",\"reply\":\"noted\",\"turn\":1,\"window\":0}";

/// The reply to the third.
pub const RAISED: &str =
    "HTTP/1.1 200 OK\r\nContent-Type: application/json\r\nContent-Length: 69\r\n\r\n{\"programme\":\"A\",\"reply\":\"raised\",\"seats\":2,\"step\":\"OPEN\",\"window\":0}";

/// The reply to the fourth after the second: candidates 2, 3, 4 and 5 have seats.
pub const PUBLISHED: &str =
    "HTTP/1.1 200 OK\r\nContent-Type: application/json\r\nContent-Length: 42\r\n\r\n{\"reply\":\"published\",\"round\":1,\"seated\":4}";

/// The season; None where there is no memory for it.
fn read(alloc: Global) -> Option<(Season, Script)>
    ensures { IfSome result (λ read. IsSeason read.0.text read.0) }
{
    let mut text = Text::new(alloc);
    text.extend_from_slice(SEASON.as_bytes()).ok()?;
    Season::of_text(alloc, text, false).ok()
}

/// An office at its beginning, over a keeper whose call of this number fails, 0 for none. None where it cannot begin.
pub fn opened(alloc: Global, fail_at: u32) -> Option<Office<MemKeeper>>
    ensures { IfSome result (λ office. office.entries ≡ []) }
{
    let (season, _script) = read(alloc)?;
    let keeper = MemKeeper::new(alloc, &[fail_at]).ok()?;
    Office::begin(alloc, season, keeper).ok()
}

/// A link that gives these bytes in pieces of seven, and whose call of this number fails, 0 for none.
pub fn link(alloc: Global, bytes: &[u8], fail_at: u32) -> Option<MemLink> {
    MemLink::new(alloc, bytes, 7, 20_000, &[fail_at]).ok()
}

/// Texts one after another. None where there is no memory for it.
pub fn joined(alloc: Global, texts: &[&str]) -> Option<Vec<u8>> {
    let mut bytes = Vec::new(alloc);
    for text in texts {
        bytes.extend_from_slice(text.as_bytes()).ok()?;
    }
    Some(bytes)
}

/// A text so many times, and another one after it. None where there is no memory for it.
pub fn repeated(alloc: Global, text: &str, count: usize, last: &str) -> Option<Vec<u8>> {
    let mut bytes = Vec::new(alloc);
    for _ in 0..count {
        bytes.extend_from_slice(text.as_bytes()).ok()?;
    }
    bytes.extend_from_slice(last.as_bytes()).ok()?;
    Some(bytes)
}
