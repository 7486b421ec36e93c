//! What a stage asks of a network's links.
ghost use Rattle.std.specs.Prelude.{◌≡◌, ◌<◌, length};
ghost use Rattle.networks.specs.Meaning.{link_at, usable};
ghost use Rattle.least_pairs.specs.Views.{view};

use costs::{Cost, Lengths};
use networks::network::Network;

/// Whether a link is lit and has a channel that is not taken.
// Here and below a link of the network is asked for: a type for a network and a link of it would be made for each single question.
pub fn is_usable<N: Network>(network: &N, link: u16) -> bool
    requires { link < length (N.Network.meaning network.now).links }
    ensures { result ≡ usable (link_at (N.Network.meaning network.now) link) }
{
    if !network.is_lit(link).unwrap() {
        return false;
    }
    let (channels, taken) = network.channels(link).unwrap();
    taken < channels
}

/// Where a link starts and ends.
pub fn ends_of<N: Network>(network: &N, link: u16) -> (u16, u16)
    requires { link < length (N.Network.meaning network.now).links }
    ensures { result ≡ ((link_at (N.Network.meaning network.now) link).start, (link_at (N.Network.meaning network.now) link).end) }
{
    network.ends(link).unwrap()
}

/// What a link costs.
pub fn cost_of_link<N: Network, C: Cost>(network: &N, link: u16) -> C
    requires { link < length (N.Network.meaning network.now).links }
    ensures { result ≡ (view C.Cost.ops (N.Network.meaning network.now)).cost link }
{
    let (metres, poles) = network.lengths(link).unwrap();
    C::of_link(Lengths { metres, poles })
}
