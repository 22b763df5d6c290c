// The roads to the pages: the route of each, and the page that a path on it names.
ghost use Rattle.std.specs.Prelude.{◌≡◌, ◌++◌, []};
ghost use Rattle.matchit.specs.Route.{parse_route};
ghost use Rattle.office_text.specs.Lines.{split_at_each};
ghost use Rattle.http_asks.specs.Pages.{first_of_pieces, page_at};
ghost use Rattle.http_asks.specs.Roads.{page_after, shape_of};
ghost use Rattle.http_asks.specs.Router.{IsRouteOf, parameters, road_start};

use crate::pages::Page;
use crate::pieces::{first_piece, one_piece, read_candidate, read_round, two_pieces};
use office_asks::Ask;
use office_base::Code;

/// What the path of a page is for, before its parameters are read.
#[derive(Clone, Copy, PartialEq, Eq)]
pub enum Road {
    Answer,
    AnswerList,
    Choices,
    Cut,
    Cutoffs,
    RoundList,
    Raise,
    Register,
    Round,
    Seat,
    State,
    Why,
}

/// The roads to all pages.
pub(crate) const ROADS: [Road; 12] = [
    Road::Answer,
    Road::AnswerList,
    Road::Choices,
    Road::Cut,
    Road::Cutoffs,
    Road::RoundList,
    Road::Raise,
    Road::Register,
    Road::Round,
    Road::Seat,
    Road::State,
    Road::Why,
];

impl Road {
    /// Returns its route for a router.
    #[tactic(auto, unfolding(matchit::specs::Route::scan))]
    pub(crate) fn route(self) -> &'static str
        ensures read { IsRouteOf self (parse_route result.now) }
        ensures start { first_of_pieces (split_at_each 123 result.now) ≡ road_start self }
    {
        match self {
            Road::Answer => "/v1/answer",
            Road::AnswerList => "/v1/answers/{cand}",
            Road::Choices => "/v1/choices/{cand}",
            Road::Cut => "/v1/cut",
            Road::Cutoffs => "/v1/cutoffs/{round}/{prog}",
            Road::RoundList => "/v1/list/{round}/{prog}",
            Road::Raise => "/v1/raise",
            Road::Register => "/v1/register/{cand}",
            Road::Round => "/v1/round/{round}",
            Road::Seat => "/v1/seat/{cand}",
            Road::State => "/v1/state",
            Road::Why => "/v1/why/{cand}/{prog}",
        }
    }

    /// Returns how its paths begin, up to the first parameter.
    pub(crate) fn start(self) -> &'static [u8]
        ensures { result.now ≡ road_start self }
    {
        let (start, _) = first_piece(self.route().as_bytes(), b'{');
        start
    }

    /// Returns the page that a path on this road names, by what comes after its start.
    pub(crate) fn page(self, rest: &[u8]) -> Option<Page>
        requires { parameters (shape_of self) ≡ [] → rest.now ≡ [] }
        ensures { result ≡ page_at (split_at_each 47 (road_start self ++ rest.now)) }
    {
        match self {
            Road::Answer => Some(Page::Answers),
            Road::AnswerList => {
                let cand = read_candidate(one_piece(rest)?)?;
                Some(Page::Reads(Ask::Answers { cand }))
            }
            Road::Choices => {
                let cand = read_candidate(one_piece(rest)?)?;
                Some(Page::Reads(Ask::Choices { cand }))
            }
            Road::Cut => Some(Page::Cuts),
            Road::Cutoffs => cutoffs_page(rest),
            Road::RoundList => list_page(rest),
            Road::Raise => Some(Page::Raises),
            Road::Register => {
                let cand = read_candidate(one_piece(rest)?)?;
                Some(Page::Reads(Ask::Register { cand }))
            }
            Road::Round => {
                let round = read_round(one_piece(rest)?)?;
                Some(Page::Reads(Ask::Round { round }))
            }
            Road::Seat => {
                let cand = read_candidate(one_piece(rest)?)?;
                Some(Page::Reads(Ask::Seat { cand }))
            }
            Road::State => Some(Page::Reads(Ask::State)),
            Road::Why => why_page(rest),
        }
    }
}

/// Returns the page of a programme's list of a round.
fn list_page(rest: &[u8]) -> Option<Page>
    ensures { result ≡ page_after (shape_of Road.RoundList) (split_at_each 47 rest.now) }
{
    let (round, prog) = two_pieces(rest)?;
    let round = read_round(round)?;
    let prog = Code::read(prog)?;
    Some(Page::Reads(Ask::List { round, prog }))
}

/// Returns the page of a programme's cutoffs in a round.
fn cutoffs_page(rest: &[u8]) -> Option<Page>
    ensures { result ≡ page_after (shape_of Road.Cutoffs) (split_at_each 47 rest.now) }
{
    let (round, prog) = two_pieces(rest)?;
    let round = read_round(round)?;
    let prog = Code::read(prog)?;
    Some(Page::Reads(Ask::Cutoffs { round, prog }))
}

/// Returns the page of why a candidate has a seat of a programme or none.
fn why_page(rest: &[u8]) -> Option<Page>
    ensures { result ≡ page_after (shape_of Road.Why) (split_at_each 47 rest.now) }
{
    let (cand, prog) = two_pieces(rest)?;
    let cand = read_candidate(cand)?;
    let prog = Code::read(prog)?;
    Some(Page::Reads(Ask::Why { cand, prog }))
}
