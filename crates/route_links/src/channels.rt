//! One channel taken, or given back, on each link of a route.
ghost use Rattle.std.specs.Prelude.{◌≡◌, ℕ, ◌≤◌, true};
ghost use Rattle.costs.specs.Counting.{occurs};
ghost use Rattle.networks.specs.Meaning.{link_at, usable};
ghost use Rattle.route_links.specs.Along.{taken_along, given_along};

use networks::network::Network;

/// Takes one channel on each link of a route over usable links, none of them twice. No take is refused.
pub fn take_route<N: Network>(network: &mut N, route: &[u16])
    requires usable { (k : ℕ) → 1 ≤ occurs k route.now → usable (link_at (N.Network.meaning network.old) k) ≡ true }
    requires once { (k : ℕ) → occurs k route.now ≤ 1 }
    ensures taken { N.Network.meaning network.new ≡ taken_along route.now (N.Network.meaning network.old) }
    ensures keeps { N.Network.kept network.old network.new }
{
    for link in route {
        network.take(*link).unwrap();
    }
}

/// Gives one channel back on each link of a route where one is taken.
pub fn give_route<N: Network>(network: &mut N, route: &[u16])
    ensures given { N.Network.meaning network.new ≡ given_along route.now (N.Network.meaning network.old) }
    ensures keeps { N.Network.kept network.old network.new }
{
    // Its own loop beside that of a take: one that is passed the step would be longer than both.
    for link in route {
        let _ = network.give(*link);
    }
}
