//! What the planner answers: a pair of routes, or what it finds for each site.
use crate::finding::Finding;
use crate::total::Total;

// The most sites that a network has.
pub(crate) const SITES: usize = 256;

/// The links of a route, from the root on.
#[derive(Clone, Copy)]
pub struct Route {
    pub(crate) links: [u16; SITES],
    pub(crate) count: u16,
}

impl Route {
    /// The links.
    pub fn links(&self) -> &[u16] {
        let count = usize::from(self.count).min(SITES);
        &self.links[..count]
    }
}

/// Two routes that share no link, and the total of both.
#[derive(Clone, Copy)]
pub struct Pair {
    pub total: Total,
    pub one: Route,
    pub two: Route,
}

/// What a survey finds for each site; nothing for the root.
#[derive(Clone, Copy)]
pub struct Survey {
    pub(crate) findings: [Option<Finding>; SITES],
    pub(crate) sites: u16,
}

impl Survey {
    /// The findings, in the order of the sites.
    pub fn findings(&self) -> &[Option<Finding>] {
        let sites = usize::from(self.sites).min(SITES);
        &self.findings[..sites]
    }
}
