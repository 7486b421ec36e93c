//! What a pair of routes takes of the network under a pile, and gives back to it.
ghost use Rattle.std.specs.Prelude.{◌≡◌, ℕ, ◌+◌, ◌≤◌, ◌++◌, true};
ghost use Rattle.costs.specs.Counting.{occurs};
ghost use Rattle.networks.specs.Meaning.{link_at, usable};
ghost use Rattle.route_links.specs.Along.{taken_along, given_along};

use crate::pile::Pile;
use networks::network::Network;
use route_links::{give_route, take_route};

/// Takes one channel on each link of two routes over links that the pile shows usable, none of them twice.
pub fn take_pair<N: Network>(pile: &mut Pile<N>, one: &[u16], two: &[u16])
    requires usable { (k : ℕ) → 1 ≤ occurs k one.now + occurs k two.now → usable (link_at (⟦<Pile<N> as Network>⟧.meaning pile.old) k) ≡ true }
    requires once { (k : ℕ) → occurs k one.now + occurs k two.now ≤ 1 }
    ensures taken { N.Network.meaning pile.new.below.below ≡ taken_along (one.now ++ two.now) (N.Network.meaning pile.old.below.below) }
    ensures closings { pile.new.change ≡ pile.old.change }
    ensures surcharges { pile.new.below.change ≡ pile.old.below.change }
{
    take_route(pile, one);
    take_route(pile, two);
}

/// Gives one channel back on each link of two routes where one is taken, closed or not.
pub fn give_pair<N: Network>(pile: &mut Pile<N>, one: &[u16], two: &[u16])
    ensures given { N.Network.meaning pile.new.below.below ≡ given_along (one.now ++ two.now) (N.Network.meaning pile.old.below.below) }
    ensures closings { pile.new.change ≡ pile.old.change }
    ensures surcharges { pile.new.below.change ≡ pile.old.below.change }
{
    give_route(pile, one);
    give_route(pile, two);
}
