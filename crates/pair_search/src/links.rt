//! A network's links as it tells them, in plain numbers.
use anyhow::anyhow;
use networks::model::NetworkRefusal;
use networks::network::Network;
use plain_routes::link_sets::MOST_LINKS;
use plain_routes::plain_costs::PlainLengths;
use plain_routes::routes::PlainLink;
use std::alloc::{AllocError, Global};

// A link is usable if it is lit and has a channel free.
fn plain_link<N: Network>(network: &N, number: u16) -> Result<PlainLink, NetworkRefusal> {
    let (start, end) = network.ends(number)?;
    let (metres, poles) = network.lengths(number)?;
    let (channels, taken) = network.channels(number)?;
    let lit = network.is_lit(number)?;
    Ok(PlainLink {
        number,
        start,
        end,
        lengths: PlainLengths {
            metres: i64::from(metres),
            poles: i64::from(poles),
        },
        usable: lit && taken < channels,
    })
}

/// All links of a network.
pub fn plain_links<N: Network>(heap: Global, network: &N) -> anyhow::Result<Vec<PlainLink>> {
    if usize::from(network.links()) > MOST_LINKS {
        return Err(anyhow!("the network has too many links to list its routes"));
    }
    let mut links = Vec::new(heap);
    for number in 0..network.links() {
        let link = plain_link(network, number)?;
        links.push(link).map_err(AllocError::from)?;
    }
    Ok(links)
}
