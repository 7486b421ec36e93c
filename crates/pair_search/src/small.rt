//! Every network of up to four sites and up to four links, each link of one of two lengths.
use crate::comparing::compare;
use crate::tallies::Tally;
use anyhow::anyhow;
use networks::model::Link;
use networks::network::Network;
use networks::owned::OwnedNetwork;
use std::alloc::{AllocError, Global};

// The metres and the pole metres of a link. By length the first is the lesser and twice the first ties with the second; by poles first the second is the lesser.
const LENGTHS: [(u32, u32); 2] = [(1, 1), (2, 0)];

const MOST_SITES: u16 = 4;

const MOST_LINKS: u32 = 4;

// Every link that there can be between so many sites: the ordered pairs of two different sites, with each of the lengths.
fn choices(heap: Global, sites: u16) -> Result<Vec<Link>, AllocError> {
    let mut choices = Vec::new(heap);
    for start in 0..sites {
        for end in 0..sites {
            for (metres, poles) in LENGTHS {
                if start != end {
                    choices.push(Link::lit(start, end, metres, poles, 1))?;
                }
            }
        }
    }
    Ok(choices)
}

// How many lists of so many links there are.
fn lists(choices: &[Link], links: u32) -> usize {
    choices.len().saturating_pow(links)
}

// The network of one list of links. The lists are numbered: each link is a digit, to the base of how many links there can be, the last digit first.
fn network_of(
    heap: Global,
    sites: u16,
    choices: &[Link],
    links: u32,
    list: usize,
) -> anyhow::Result<OwnedNetwork> {
    let mut network = OwnedNetwork::empty(heap, sites)?;
    let mut rest = list;
    for _ in 0..links {
        let digit = rest.checked_rem(choices.len()).unwrap_or(0);
        let Some(link) = choices.get(digit).copied() else {
            return Err(anyhow!("there is no link to choose"));
        };
        network.add(link)?;
        rest = rest.checked_div(choices.len()).unwrap_or(0);
    }
    Ok(network)
}

// From how many roots a network is compared. The largest networks are compared from site 0 alone: since every network is among them, so is each with its sites renumbered, and what site 0 sees there any other root sees here. The smaller ones are compared from every root, so that ties among sites come in every order too.
fn roots(sites: u16, links: u32) -> u16 {
    if sites == MOST_SITES && links == MOST_LINKS {
        1
    } else {
        sites
    }
}

// Compares every network of so many sites and links.
fn compare_size(rt: &HostRuntime, sites: u16, links: u32, tally: &mut Tally) -> anyhow::Result<()> {
    let choices = choices(rt.alloc(), sites)?;
    let choices = choices.as_slice();
    for list in 0..lists(choices, links) {
        let network = network_of(rt.alloc(), sites, choices, links, list)?;
        compare(rt, &network, roots(sites, links), tally)?;
    }
    Ok(())
}

/// Compares every small network, and answers how much that was.
pub fn compare_every_network(rt: &HostRuntime) -> anyhow::Result<Tally> {
    let mut tally = Tally::NOTHING;
    for sites in 2..=MOST_SITES {
        for links in 0..=MOST_LINKS {
            compare_size(rt, sites, links, &mut tally)?;
        }
    }
    Ok(tally)
}
