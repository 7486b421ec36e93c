//! The first run: a settled site considers the usable links that start there.
ghost use Rattle.std.specs.Prelude.{◌≡◌};
ghost use Rattle.least_pairs.specs.Views.{view};
ghost use Rattle.least_pairs.specs.Plans.{first_job};
ghost use Rattle.stages.specs.First.{cut};

use crate::usable::{cost_of_link, ends_of, is_usable};
use costs::Cost;
use networks::network::Network;
use runs::Stage;

/// The first stage over a network, with one link left out or none.
#[derive(Drop)]
pub struct FirstStage<'a, N> {
    network: &'a N,
    left_out: Option<u16>,
}

impl<'a, N: Network> FirstStage<'a, N> {
    /// The stage over all links but the one left out, if one is.
    pub fn new(network: &'a N, left_out: Option<u16>) -> Self
        ensures network { result.network.now ≡ network.now }
        ensures left_out { result.left_out ≡ left_out }
    {
        FirstStage { network, left_out }
    }
}

impl<'a, N: Network, C: Cost> Stage<C> for FirstStage<'a, N> {
    ghost job = { λ s. first_job (cut s.left_out (view C.Cost.ops (N.Network.meaning s.network.now))) };

    ghost ready = { λ s S. Unit {0} };

    fn strike(&mut self, site: u16) {}

    fn offer(&self, site: u16, link: u16) -> Option<(u16, C)> {
        let network = self.network;
        if !is_usable(network, link) || self.left_out == Some(link) {
            return None;
        }
        let (start, end) = ends_of(network, link);
        if start != site {
            return None;
        }
        Some((end, cost_of_link::<N, C>(network, link)))
    }
}
