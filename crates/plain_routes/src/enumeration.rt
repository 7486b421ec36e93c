//! What a planning is to answer, by plain enumeration: the routes to the target are listed, and every two of them are tried together. It stands on nothing of the planner.
use crate::link_sets::LinkSet;
use crate::plain_costs::{Kind, PlainCost};
use crate::routes::Route;
use std::fmt;

/// No route leads to the target; every route uses one link, and this is the one that they all meet first; or the least that two routes cost together which share no link.
#[derive(Clone, Copy, PartialEq, Eq)]
pub enum Answer {
    NoRoute,
    OneLink { link: u16 },
    Pair { total: PlainCost },
}

impl fmt::Display for Answer {
    fn fmt<W: fmt::Write>(&self, f: &mut fmt::Formatter<W>) -> fmt::Result {
        match *self {
            Answer::NoRoute => f.write_str("no route"),
            Answer::OneLink { link } => write!(f, "link {link} in every route"),
            Answer::Pair { total } => write!(f, "a pair of {total}"),
        }
    }
}

// The links that every route uses.
fn shared_links(routes: &[Route]) -> LinkSet {
    let mut shared = LinkSet::ALL;
    for route in routes {
        shared = shared.common(route.used);
    }
    shared
}

// The link of a set that every route meets first. None if routes differ in it.
fn met_first(routes: &[Route], set: LinkSet) -> Option<u16> {
    let link = routes.first()?.first_of(set);
    if routes.iter().all(|route| route.first_of(set) == link) {
        link
    } else {
        None
    }
}

// The lesser of a cost and the least before, if there is one.
fn lesser(least: Option<PlainCost>, cost: PlainCost) -> PlainCost {
    match least {
        Some(least) if least <= cost => least,
        _ => cost,
    }
}

// The least that two routes cost together which share no link. None if every two share one.
fn least_pair(routes: &[Route], kind: Kind) -> Option<PlainCost> {
    let mut least = None;
    for one in routes {
        for two in routes {
            if one.used.common(two.used).is_empty() {
                let total = one.lengths.sum(two.lengths).cost(kind);
                least = Some(lesser(least, total));
            }
        }
    }
    least
}

/// The answer for a target by all routes that lead there. None would contradict Menger's theorem: no link is in every route, and yet every two routes share one; or the links that are in every route are not met in the same order by all.
pub fn answer_by(routes: &[Route], kind: Kind) -> Option<Answer> {
    if routes.is_empty() {
        return Some(Answer::NoRoute);
    }
    let shared = shared_links(routes);
    if shared.is_empty() {
        let total = least_pair(routes, kind)?;
        Some(Answer::Pair { total })
    } else {
        let link = met_first(routes, shared)?;
        Some(Answer::OneLink { link })
    }
}
