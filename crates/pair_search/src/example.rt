//! One example network: its quote, the quote while the pair is taken, and the quote after the pair is given back.
use crate::comparing::compare;
use crate::planning::{Planned, quote_to};
use crate::tallies::Tally;
use anyhow::anyhow;
use costs::Length;
use networks::building::BuildRefusal;
use networks::model::Link;
use networks::network::Network;
use networks::owned::OwnedNetwork;
use planner_tables::PlannerRefusal;
use refusals::Refusal;
use std::alloc::Global;

// The start, the end and the metres of each link.
const LINKS: [(u16, u16, u32); 7] = [
    (0, 1, 100),
    (0, 3, 150),
    (1, 2, 150),
    (1, 4, 100),
    (3, 4, 150),
    (2, 5, 150),
    (4, 5, 100),
];

const SITES: u16 = 6;

const ROOT: u16 = 0;

const TARGET: u16 = 5;

// The least pair, worked out by hand. The shortest route, over the links 0, 3 and 6, is in no pair.
const ONE: [u16; 3] = [0, 2, 5];

const TWO: [u16; 3] = [1, 4, 6];

const TOTAL: i64 = 800;

// The network, with one channel on each link.
fn network(heap: Global) -> Result<OwnedNetwork, BuildRefusal> {
    let mut network = OwnedNetwork::empty(heap, SITES)?;
    for (start, end, metres) in LINKS {
        network.add(Link::lit(start, end, metres, 0, 1))?;
    }
    Ok(network)
}

fn is_least_pair(planned: &Planned<Length>) -> bool {
    planned.one() == ONE.as_slice()
        && planned.two() == TWO.as_slice()
        && planned.quote.total.metres() == TOTAL
}

// Prints the quote, which has to be the least pair.
fn quote_pair(rt: &HostRuntime, network: &OwnedNetwork) -> anyhow::Result<()> {
    let Ok(planned) = quote_to::<OwnedNetwork, Length>(rt.alloc(), network, ROOT, TARGET)? else {
        return Err(anyhow!("the example network has no pair"));
    };
    let one = planned.one();
    let two = planned.two();
    let total = planned.quote.total.metres();
    println!(rt; "quote from {ROOT} to {TARGET}: routes {one:?} and {two:?}, total {total}")?;
    if !is_least_pair(&planned) {
        return Err(anyhow!("the example network has another pair"));
    }
    Ok(())
}

// Prints the refusal of the quote, which has to be that no route leads there.
fn quote_refused(rt: &HostRuntime, network: &OwnedNetwork) -> anyhow::Result<()> {
    let Err(refusal) = quote_to::<OwnedNetwork, Length>(rt.alloc(), network, ROOT, TARGET)? else {
        return Err(anyhow!("the example network still has a pair"));
    };
    let number = Refusal::from(refusal).number();
    println!(rt; "quote from {ROOT} to {TARGET}: refused {number}, {refusal}")?;
    if refusal != PlannerRefusal::NoRoute {
        return Err(anyhow!("the quote is refused for another reason"));
    }
    Ok(())
}

// Compares the whole network as it is with enumeration.
fn compare_whole(rt: &HostRuntime, network: &OwnedNetwork) -> anyhow::Result<()> {
    let mut tally = Tally::NOTHING;
    compare(rt, network, SITES, &mut tally)?;
    println!(rt; "{tally}")?;
    Ok(())
}

/// Takes the example network through its steps, and prints each.
pub fn show(rt: &HostRuntime) -> anyhow::Result<()> {
    let mut network = network(rt.alloc())?;
    quote_pair(rt, &network)?;
    compare_whole(rt, &network)?;
    for link in ONE.iter().chain(TWO.iter()) {
        network.take(*link)?;
        println!(rt; "link {link} taken")?;
    }
    quote_refused(rt, &network)?;
    compare_whole(rt, &network)?;
    for link in ONE.iter().chain(TWO.iter()) {
        network.give(*link)?;
        println!(rt; "link {link} given back")?;
    }
    quote_pair(rt, &network)?;
    compare_whole(rt, &network)
}
