//! Networks and layers over them, drawn at random.
use layers::closed::Closing;
use layers::surcharged::Surcharge;
use networks::model::Link;
use networks::network::Network;
use networks::owned::OwnedNetwork;
use plain_routes::numbers::Numbers;
use std::alloc::Global;

// The metres and the pole metres of a link: few, so that costs tie.
const LENGTHS: [(u32, u32); 6] = [(1, 0), (1, 1), (2, 0), (2, 1), (3, 0), (3, 3)];

// The most channels of a link.
const MOST_CHANNELS: u16 = 3;

// A link with these ends, one in ten of them dark.
fn drawn_link(numbers: &mut Numbers, ends: (u16, u16)) -> Link {
    let drawn = usize::from(numbers.below(6));
    let (metres, poles) = LENGTHS.get(drawn).copied().unwrap_or((1, 0));
    let channels = numbers.below(MOST_CHANNELS).saturating_add(1);
    let mut link = Link::lit(ends.0, ends.1, metres, poles, channels);
    link.lit = !numbers.is_one_in(10);
    link
}

/// A network of 5 to 7 sites and 6 to 12 links.
pub fn drawn_network(heap: Global, numbers: &mut Numbers) -> anyhow::Result<OwnedNetwork> {
    let sites = numbers.below(3).saturating_add(5);
    // The more of two draws: with few links most sites have no route.
    let links = numbers.below(7).max(numbers.below(7)).saturating_add(6);
    let mut network = OwnedNetwork::empty(heap, sites)?;
    let mut ends = (0, 0);
    for _ in 0..links {
        ends = numbers.ends(sites, ends);
        network.add(drawn_link(numbers, ends))?;
    }
    Ok(network)
}

/// A network with one in ten of its links closed.
pub fn closed<N: Network + Drop>(numbers: &mut Numbers, network: N) -> anyhow::Result<Closing<N>> {
    let mut layer = Closing::over(network);
    for link in 0..layer.links() {
        if numbers.is_one_in(10) {
            layer.close(link)?;
        }
    }
    Ok(layer)
}

/// A network with one in three of its links surcharged, by 1 or 2 metres.
pub fn surcharged<N: Network + Drop>(
    numbers: &mut Numbers,
    network: N,
) -> anyhow::Result<Surcharge<N>> {
    let mut layer = Surcharge::over(network);
    for link in 0..layer.links() {
        if numbers.is_one_in(3) {
            let amount = numbers.below(2).saturating_add(1);
            layer.surcharge(link, u32::from(amount))?;
        }
    }
    Ok(layer)
}

/// Takes channels of one in ten of the links until none is free.
pub fn fill<N: Network>(numbers: &mut Numbers, network: &mut N) {
    for link in 0..network.links() {
        if numbers.is_one_in(10) {
            for _ in 0..MOST_CHANNELS {
                // Refused where none is free, and where the link is dark.
                let _taken = network.take(link);
            }
        }
    }
}
