//! The lengths of a route's links added up.
ghost use Rattle.std.specs.Prelude.{◌≡◌, ◌≤◌, length};
ghost use Rattle.networks.specs.Meaning.{link_at};
ghost use Rattle.route_links.specs.Along.{metres_along, poles_along};

use networks::network::Network;

/// The metres and the pole metres of a link; of a number that is no link, zero.
fn lengths_of<N: Network>(network: &N, link: u16) -> (u32, u32)
    ensures { result ≡ ((link_at (N.Network.meaning network.now) link).metres, (link_at (N.Network.meaning network.now) link).poles) }
{
    network.lengths(link).unwrap_or((0, 0))
}

/// The metres and the pole metres of a route's links, each added up.
pub fn add_up<N: Network>(network: &N, route: &[u16]) -> (u32, u32)
    requires { length route.now ≤ 255 }
    ensures { result ≡ (metres_along (N.Network.meaning network.now) route.now, poles_along (N.Network.meaning network.now) route.now) }
{
    let mut metres: u32 = 0;
    let mut poles: u32 = 0;
    for link in route {
        let lengths = lengths_of(network, *link);
        metres += lengths.0;
        poles += lengths.1;
    }
    (metres, poles)
}
