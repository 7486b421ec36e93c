//! A pile: what it is, how it begins, and what it shows.
ghost use Rattle.std.specs.Prelude.{◌≡◌, ℕ, false};
ghost use Rattle.layers.specs.Shown.{marks, amounts};
ghost use Rattle.piles.specs.Piles.{piled};

use layers::closed::Closing;
use layers::layer::Layer;
use layers::surcharged::Surcharge;
use networks::network::Network;

/// A network under surcharges, and these under closings.
pub type Pile<N> = Closing<Surcharge<N>>;

/// A pile over a network, with no link closed and no amount on any.
pub fn pile_over<N: Network>(network: N) -> Pile<N>
    ensures below { result.below.below ≡ network }
    ensures open { (k : ℕ) → marks result k ≡ false }
    ensures uncharged { (k : ℕ) → amounts result.below k ≡ 0 }
{
    Layer::over(Layer::over(network))
}

/// Theorem: a pile means the network under both layers with each link's amount added to its metres and the closed links dark.
pub fn pile_shows<N: Network>(pile: &Pile<N>)
    ensures { ⟦<Pile<N> as Network>⟧.meaning pile.now ≡ piled (marks pile.now) (amounts pile.now.below) (N.Network.meaning pile.now.below.below) }
{}
