//! Quotes and holds, compared with enumeration.
use crate::faults::{Fault, same_answer};
use crate::planning::{Ends, Told};
use crate::register::{Circuit, Register};
use crate::room::Room;
use plain_routes::enumeration::{Answer, answer_by};
use plain_routes::plain_costs::{Kind, PlainCost};
use plain_routes::routes::{Passing, PlainLink, Route, routes_from, routes_to};
use refusals::Refusal;
use std::alloc::Global;

/// What enumeration finds for two different sites.
pub fn answer_for(
    heap: Global,
    links: &[PlainLink],
    ends: Ends,
    kind: Kind,
) -> Result<Answer, Fault> {
    let all = routes_from(heap, links, ends.root, Passing::Once)?;
    let routes = routes_to(heap, all.as_slice(), ends.target)?;
    answer_by(routes.as_slice(), kind).ok_or(Fault::Contradiction)
}

/// What a quote is to answer: the least total, or the refusal.
pub fn expected_total(
    heap: Global,
    register: &Register,
    ends: Ends,
    kind: Kind,
    room: Room,
) -> Result<Result<PlainCost, Refusal>, Fault> {
    let sites = register.sites;
    if ends.root >= sites || ends.target >= sites || ends.root == ends.target {
        return Ok(Err(Refusal::NotSites));
    }
    if !room.is_enough_for_routes() {
        return Ok(Err(Refusal::TableTooShort));
    }
    let links = register.plain_links(heap)?;
    Ok(match answer_for(heap, links.as_slice(), ends, kind)? {
        Answer::NoRoute => Err(Refusal::NoRoute),
        Answer::OneLink { link } => Err(Refusal::OneLink { link }),
        Answer::Pair { total } => Ok(total),
    })
}

/// What is left in a table that was lent.
#[derive(Clone, Copy)]
pub struct Lent<'a> {
    before: &'a [u16],
    after: &'a [u16],
}

impl<'a> Lent<'a> {
    /// A table before a call and after it.
    pub fn new(before: &'a [u16], after: &'a [u16]) -> Lent<'a> {
        Lent { before, after }
    }

    // Whether the entries from a place on are as they were.
    fn is_left_from(&self, place: usize) -> bool {
        self.before.len() == self.after.len() && self.before.get(place..) == self.after.get(place..)
    }

    // The route of so many links at the table's front. None if it is none, or if what is behind it is not as it was.
    fn route(&self, links: &[PlainLink], root: u16, count: u16) -> Option<Route> {
        let count = usize::from(count);
        if !self.is_left_from(count) {
            return None;
        }
        Route::over(links, root, self.after.get(..count)?, Passing::Once)
    }
}

// The two routes that were answered, if they lead to the target, share no link and have this total.
fn answered_pair(
    links: &[PlainLink],
    ends: Ends,
    kind: Kind,
    total: PlainCost,
    told: Told,
    one: Lent,
    two: Lent,
) -> Option<Circuit> {
    let one = one.route(links, ends.root, told.one)?;
    let two = two.route(links, ends.root, told.two)?;
    let apart = one.used.common(two.used).is_empty();
    let cost = one.lengths.sum(two.lengths).cost(kind);
    let is_told = told.total.is_none_or(|told| told == total);
    let is_pair = one.end == ends.target && two.end == ends.target && apart;
    if is_pair && cost == total && is_told {
        Some(Circuit {
            root: ends.root,
            target: ends.target,
            one,
            two,
        })
    } else {
        None
    }
}

/// Compares what a quote or a hold answered and left in the route tables with what it was to answer, on the links as they were before. A refusal leaves both tables as they were.
pub fn same_pair(
    links: &[PlainLink],
    ends: Ends,
    kind: Kind,
    expected: Result<PlainCost, Refusal>,
    answered: Result<Told, Refusal>,
    one: Lent,
    two: Lent,
) -> Result<Result<Circuit, Refusal>, Fault> {
    let _refused = same_answer(expected, answered)?;
    match (expected, answered) {
        (Ok(total), Ok(told)) => {
            let pair = answered_pair(links, ends, kind, total, told, one, two);
            Ok(Ok(pair.ok_or(Fault::Pair)?))
        }
        (Err(refusal), _) if one.is_left_from(0) && two.is_left_from(0) => Ok(Err(refusal)),
        _ => Err(Fault::Tables),
    }
}
