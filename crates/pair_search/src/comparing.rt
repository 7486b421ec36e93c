//! Quotes and surveys of a network, compared with enumeration.
use crate::faults::Fault;
use crate::links::plain_links;
use crate::planning::{Planned, quote_to, survey_from};
use crate::tallies::Tally;
use anyhow::anyhow;
use costs::{Length, PolesFirst};
use networks::network::Network;
use plain_routes::enumeration::{Answer, answer_by};
use plain_routes::kinds::Known;
use plain_routes::plain_costs::Kind;
use plain_routes::routes::{Passing, PlainLink, Route, routes_from, routes_to};
use planner_tables::PlannerRefusal;
use std::alloc::Global;
use surveys::Outcome;

// A network with its links, a root, and every route from it.
#[derive_where(Clone, Copy)]
struct Case<'a, N> {
    network: &'a N,
    links: &'a [PlainLink],
    root: u16,
    routes: &'a [Route],
}

// Whether a quote's routes both lead to the target, share no link, and cost the quote's total together.
fn is_pair<N, C: Known>(case: &Case<N>, target: u16, planned: &Planned<C>) -> bool {
    let Some(one) = Route::over(case.links, case.root, planned.one(), Passing::Often) else {
        return false;
    };
    let Some(two) = Route::over(case.links, case.root, planned.two(), Passing::Often) else {
        return false;
    };
    let apart = one.used.common(two.used).is_empty();
    let total = one.lengths.sum(two.lengths).cost(C::kind());
    one.end == target && two.end == target && apart && total == planned.quote.total.plain()
}

// What a quote answers, once its routes are seen to be a pair.
fn quoted<N: Network, C: Known>(
    heap: Global,
    case: &Case<N>,
    target: u16,
) -> Result<Option<Answer>, Fault> {
    match quote_to::<N, C>(heap, case.network, case.root, target)? {
        Ok(planned) => {
            if !is_pair(case, target, &planned) {
                return Err(Fault::Routes);
            }
            let total = planned.quote.total.plain();
            Ok(Some(Answer::Pair { total }))
        }
        Err(PlannerRefusal::NoRoute) => Ok(Some(Answer::NoRoute)),
        Err(PlannerRefusal::OneLink { link }) => Ok(Some(Answer::OneLink { link })),
        Err(_) => Ok(None),
    }
}

// What a survey answers for a site that is not the root.
fn surveyed<C: Known>(outcome: Outcome<C>) -> Option<Answer> {
    match outcome {
        Outcome::Root => None,
        Outcome::NoRoute => Some(Answer::NoRoute),
        Outcome::OneLink { link } => Some(Answer::OneLink { link }),
        Outcome::Total(total) => Some(Answer::Pair {
            total: total.plain(),
        }),
    }
}

// Compares the quote and the survey entry of a target with enumeration, and answers what all three say.
fn compare_target<N: Network, C: Known>(
    heap: Global,
    case: &Case<N>,
    target: u16,
    outcome: Outcome<C>,
) -> Result<Answer, Fault> {
    let routes = routes_to(heap, case.routes, target)?;
    let Some(expected) = answer_by(routes.as_slice(), C::kind()) else {
        return Err(Fault::Contradiction);
    };
    let quoted = quoted::<N, C>(heap, case, target)?;
    if quoted != Some(expected) {
        return Err(Fault::Quote { expected, quoted });
    }
    let surveyed = surveyed(outcome);
    if surveyed != Some(expected) {
        return Err(Fault::Survey { expected, surveyed });
    }
    Ok(expected)
}

// Compares the survey entry of a site, and the quote if it is not the root, with enumeration.
fn compare_site<N: Network, C: Known>(
    heap: Global,
    case: &Case<N>,
    site: u16,
    outcome: Outcome<C>,
    tally: &mut Tally,
) -> Result<(), Fault> {
    if site != case.root {
        tally.add_target(compare_target(heap, case, site, outcome)?);
        return Ok(());
    }
    if !matches!(&outcome, Outcome::Root) {
        return Err(Fault::Root);
    }
    tally.add_root();
    Ok(())
}

// Prints where the planner and enumeration differ, with the whole network, and answers the error that ends the program.
fn report<N: Network>(
    rt: &HostRuntime,
    case: &Case<N>,
    kind: Kind,
    site: u16,
    fault: Fault,
) -> anyhow::Result<()> {
    if matches!(&fault, Fault::Memory) {
        return Err(anyhow!("{fault}"));
    }
    let root = case.root;
    let sites = case.network.sites();
    println!(rt; "MISMATCH from {root} to {site} {kind}, of {sites} sites: {fault}")?;
    for link in case.links {
        let PlainLink {
            number,
            start,
            end,
            lengths,
            usable,
        } = *link;
        let metres = lengths.metres;
        let poles = lengths.poles;
        println!(rt;
            "link {number} from {start} to {end}: metres {metres} poles {poles} usable {usable}"
        )?;
    }
    Err(anyhow!("the planner differs from enumeration"))
}

// Compares all quotes from a root by one kind, and the survey, with enumeration.
fn compare_kind<N: Network, C: Known>(
    rt: &HostRuntime,
    case: &Case<N>,
    tally: &mut Tally,
) -> anyhow::Result<()> {
    let outcomes = survey_from::<N, C>(rt.alloc(), case.network, case.root)?;
    let sites = case.network.sites();
    if outcomes.len() != usize::from(sites) {
        return report(rt, case, C::kind(), case.root, Fault::Sites);
    }
    for (site, outcome) in (0..sites).zip(outcomes) {
        if let Err(fault) = compare_site(rt.alloc(), case, site, outcome, tally) {
            return report(rt, case, C::kind(), site, fault);
        }
    }
    Ok(())
}

/// Compares the planner with enumeration for a network, by both kinds of cost, from each of the sites below `roots`.
pub fn compare<N: Network>(
    rt: &HostRuntime,
    network: &N,
    roots: u16,
    tally: &mut Tally,
) -> anyhow::Result<()> {
    let links = plain_links(rt.alloc(), network)?;
    for root in 0..roots {
        let routes = routes_from(rt.alloc(), links.as_slice(), root, Passing::Often)?;
        let case = Case {
            network,
            links: links.as_slice(),
            root,
            routes: routes.as_slice(),
        };
        compare_kind::<N, Length>(rt, &case, tally)?;
        compare_kind::<N, PolesFirst>(rt, &case, tally)?;
    }
    tally.add_network();
    Ok(())
}
