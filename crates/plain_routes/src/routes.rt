//! Every route from a root, listed. A route is one usable link or more, each of which starts where
//! the one before it ends, and none of which comes twice.
use crate::link_sets::{LinkSet, MOST_LINKS};
use crate::plain_costs::PlainLengths;
use std::alloc::{AllocError, Global};

/// The most sites that a network has here if its sites are passed once.
pub const MOST_SITES: usize = 12;

/// How often a route may pass a site: once, or any number of times. Of the links of a route that
/// passes one twice some make a cheaper route that does not; so without such routes the answers are
/// the same.
#[derive(Clone, Copy, PartialEq, Eq)]
pub enum Passing {
    Once,
    Often,
}

/// A link by its number, as it can be used at some time.
#[derive(Clone, Copy)]
pub struct PlainLink {
    pub number: u16,
    pub start: u16,
    pub end: u16,
    pub lengths: PlainLengths,
    pub usable: bool,
}

/// A route, or the beginning of one with no link yet.
#[derive(Clone, Copy)]
pub struct Route {
    pub end: u16,
    pub used: LinkSet,
    pub lengths: PlainLengths,
    links: [u16; MOST_LINKS],
    count: usize,
    passing: Passing,
    passed: [bool; MOST_SITES],
}

impl Route {
    /// The beginning of every route from a root.
    pub fn begun(root: u16, passing: Passing) -> Route {
        let mut passed = [false; MOST_SITES];
        if let Some(mark) = passed.get_mut(usize::from(root)) {
            *mark = true;
        }
        Route {
            end: root,
            used: LinkSet::NONE,
            lengths: PlainLengths::NOTHING,
            links: [0; MOST_LINKS],
            count: 0,
            passing,
            passed,
        }
    }

    // Marks a site as passed. None if it may be passed once and was, or if it has no mark.
    fn pass(&mut self, site: u16) -> Option<()> {
        if self.passing == Passing::Often {
            return Some(());
        }
        let mark = self.passed.get_mut(usize::from(site))?;
        if *mark {
            return None;
        }
        *mark = true;
        Some(())
    }

    /// The route with a link more, if that link can follow.
    pub fn with(&self, link: &PlainLink) -> Option<Route> {
        if !link.usable || link.start != self.end || self.used.has(link.number) {
            return None;
        }
        let mut longer = *self;
        longer.pass(link.end)?;
        let place = longer.links.get_mut(self.count)?;
        *place = link.number;
        longer.count = self.count.saturating_add(1);
        longer.end = link.end;
        longer.used = self.used.with(link.number);
        longer.lengths = self.lengths.sum(link.lengths);
        Some(longer)
    }

    /// The route of these links from a root. None if they are none.
    pub fn over(
        links: &[PlainLink],
        root: u16,
        numbers: &[u16],
        passing: Passing,
    ) -> Option<Route> {
        let mut route = Route::begun(root, passing);
        for number in numbers {
            let link = links.get(usize::from(*number))?;
            route = route.with(link)?;
        }
        Some(route)
    }

    /// The links.
    pub fn links(&self) -> &[u16] {
        self.links.get(..self.count).unwrap_or(&[])
    }

    /// The first link of a set that the route meets.
    pub fn first_of(&self, set: LinkSet) -> Option<u16> {
        let links = self.links.iter().copied();
        links.take(self.count).find(|link| set.has(*link))
    }
}

// Lists the routes that have one link more than a route.
fn list_longer(
    routes: &mut Vec<Route>,
    route: &Route,
    links: &[PlainLink],
) -> Result<(), AllocError> {
    for link in links {
        if let Some(longer) = route.with(link) {
            routes.push(longer)?;
        }
    }
    Ok(())
}

/// Every route from a root over some links, the shorter ones first: those of one link, then those
/// that have one link more than these, and so on, up to as many links as there are.
pub fn routes_from(
    heap: Global,
    links: &[PlainLink],
    root: u16,
    passing: Passing,
) -> Result<Vec<Route>, AllocError> {
    let mut routes = Vec::new(heap);
    list_longer(&mut routes, &Route::begun(root, passing), links)?;
    let mut from = 0;
    for _ in links {
        let until = routes.len();
        for at in from..until {
            if let Some(route) = routes.get(at).copied() {
                list_longer(&mut routes, &route, links)?;
            }
        }
        from = until;
    }
    Ok(routes)
}

/// Those of some routes that end at a target.
pub fn routes_to(heap: Global, routes: &[Route], target: u16) -> Result<Vec<Route>, AllocError> {
    let ending = routes.iter().filter(|route| route.end == target);
    ending.copied().collect(heap)
}
