// The pages of the office, and which of them a target names.
ghost use Rattle.std.specs.Prelude.{◌≡◌};
ghost use Rattle.http_asks.specs.Pages.{method_of, page_of, path_of, takes_body};

use crate::router::Routes;
use http_wire::Method;
use office_asks::Ask;

/// A page of the office.
#[derive(Clone, Copy, PartialEq, Eq)]
pub enum Page {
    /// It takes a candidate's answer from a body.
    Answers,
    /// It takes the end of a window from a body.
    Cuts,
    /// It takes more seats for a step from a body.
    Raises,
    /// It is read, and asks this.
    Reads(Ask),
}

impl Page {
    /// Returns the one method that the page has.
    pub fn method(&self) -> Method
        ensures { result ≡ method_of self.now }
    {
        if self.takes_body() {
            Method::Post
        } else {
            Method::Get
        }
    }

    /// Returns whether the page takes a body.
    pub fn takes_body(&self) -> bool
        ensures { result ≡ takes_body self.now }
    {
        match self {
            Page::Answers | Page::Cuts | Page::Raises => true,
            Page::Reads(_) => false,
        }
    }
}

/// Returns the page that a target names, by its path up to the first `?`, which is not decoded. None if it names none.
#[tactic(auto, unfolding(crate::specs::Pages::page_of))]
pub fn page_of(routes: &Routes, target: &str) -> Option<Page>
    ensures { result ≡ page_of target.now }
{
    let (road, rest) = routes.road_of(path_of(target))?;
    road.page(rest)
}

/// Returns the path of a target: what comes before its first `?`.
fn path_of(target: &str) -> &str
    ensures { result.now ≡ path_of target.now }
{
    match target.split_once('?') {
        Some((path, _)) => path,
        None => target,
    }
}
