// The road that a path is on, found by the kit's `matchit`.
ghost use Rattle.std.specs.Prelude.{◌≡◌, None, true, IfSome, IfNone, OnOk};
ghost use Rattle.matchit.specs.Order.{placed};
ghost use Rattle.matchit.specs.Router.{nearest};
ghost use Rattle.office_text.specs.Lines.{split_at_each};
ghost use Rattle.http_asks.specs.Pages.{page_at};
ghost use Rattle.http_asks.specs.Router.{IsOn, fit, pattern_of, road_rows, roads_of, with_roads};

use crate::roads::{ROADS, Road};
use matchit::{InsertError, Router};
use office_base::OutOfMemory;
use std::alloc::Global;

/// The routes of all pages. They are made once; a path is looked up without an allocator.
#[derive(Drop)]
pub struct Routes {
    router: Router<Road>,
    pub ghost table: { roads_of router ≡ road_rows },
}

impl Routes {
    /// Returns the routes of all pages, unless memory runs out.
    pub fn new(alloc: Global) -> Result<Routes, OutOfMemory> {
        let mut router = Router::new(alloc);
        add_all(&mut router, &ROADS)?;
        Ok(Routes { router })
    }

    /// Returns the road that a path is on, and what comes after the start of its paths.
    /// None only if the path is no page's.
    pub fn road_of<'a>(&self, path: &'a str) -> Option<(Road, &'a [u8])>
        ensures some { IfSome result (λ on. IsOn on.0 path.now on.1.now) }
        ensures none { IfNone result (page_at (split_at_each 47 path.now) ≡ None) }
    {
        match self.router.at(path) {
            Ok(found) => {
                let road = *found.value;
                let (_, rest) = path.as_bytes().split_at(road.start().len());
                Some((road, rest))
            }
            Err(_) => None,
        }
    }
}

/// Adds roads that do not conflict. Fails only if the router runs out of memory.
fn add_all(router: &mut Router<Road>, roads: &[Road]) -> Result<(), OutOfMemory>
    requires { fit roads.now (roads_of router.old) ≡ true }
    ensures { OnOk result (roads_of router.new ≡ with_roads roads.now (roads_of router.old)) }
{
    for road in roads {
        add(router, *road)?;
    }
    Ok(())
}

/// Adds a road that conflicts with none. Fails only if the router runs out of memory for it.
fn add(router: &mut Router<Road>, road: Road) -> Result<(), OutOfMemory>
    requires { nearest (pattern_of road) (roads_of router.old) ≡ None }
    ensures { OnOk result
        (roads_of router.new ≡ placed (pattern_of road, road) (roads_of router.old)) }
{
    match router.insert(road.route(), road) {
        Ok(()) => Ok(()),
        Err(InsertError::OutOfMemory) => Err(OutOfMemory),
        Err(_) => unreachable!("no other route conflicts with it"),
    }
}
