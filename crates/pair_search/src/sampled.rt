//! A sample of larger networks, with and without layers over them: with links side by side, costs that tie, dark and closed links, and links with no channel free.
use crate::comparing::compare;
use crate::drawing::{closed, drawn_network, fill, surcharged};
use crate::tallies::Tally;
use networks::network::Network;
use plain_routes::numbers::Numbers;

// How many networks are drawn for each pile of layers.
const NETWORKS: u16 = 1000;

// Fills some links of a network, and compares it from every root.
fn compare_filled<N: Network + Drop>(
    rt: &HostRuntime,
    numbers: &mut Numbers,
    mut network: N,
    tally: &mut Tally,
) -> anyhow::Result<()> {
    fill(numbers, &mut network);
    compare(rt, &network, network.sites(), tally)
}

// Compares a network with no layer, one with closings, one with surcharges over closings, and one with closings over surcharges.
fn compare_piles(rt: &HostRuntime, numbers: &mut Numbers, tally: &mut Tally) -> anyhow::Result<()> {
    let bare = drawn_network(rt.alloc(), numbers)?;
    compare_filled(rt, numbers, bare, tally)?;

    let below = drawn_network(rt.alloc(), numbers)?;
    let layer = closed(numbers, below)?;
    compare_filled(rt, numbers, layer, tally)?;

    let below = drawn_network(rt.alloc(), numbers)?;
    let layer = closed(numbers, below)?;
    let pile = surcharged(numbers, layer)?;
    compare_filled(rt, numbers, pile, tally)?;

    let below = drawn_network(rt.alloc(), numbers)?;
    let layer = surcharged(numbers, below)?;
    let pile = closed(numbers, layer)?;
    compare_filled(rt, numbers, pile, tally)
}

/// Compares the sample, and answers how much that was.
pub fn compare_sample(rt: &HostRuntime) -> anyhow::Result<Tally> {
    let mut numbers = Numbers::seeded(1984);
    let mut tally = Tally::NOTHING;
    for _ in 0..NETWORKS {
        compare_piles(rt, &mut numbers, &mut tally)?;
    }
    Ok(tally)
}
