//! What every layer does: it is laid over a network and lifted off again, and it meets the trait of networks.
ghost use Rattle.std.specs.Prelude.{◌≡◌, true};
ghost use Rattle.std.proofs.Common.{◌∙◌, ap, rules};
ghost use Rattle.networks.specs.Changing.{changed, cleared};
ghost use Rattle.networks.proofs.Layering.{sound_changed, alike_changed};
ghost use Rattle.layers.specs.LayerLaws.{shown_sound, shown_retaken};

use crate::change::Change;
use crate::layer::Layer;
use networks::model::NetworkRefusal;
use networks::network::Network;

impl<N: Network, K: Change> Layer<N, K> {
    /// A layer over a network, with no link changed.
    pub fn over(below: N) -> Layer<N, K>
        ensures below { result.below ≡ below }
        ensures nothing { K.Change.nothing result.change }
        ensures shows { changed (K.Change.shown result.change) (N.Network.meaning below) ≡ N.Network.meaning below }
    {
        Layer {
            below,
            change: K::none(),
        }
    }

    /// Hands the network below out again.
    pub fn into_below(self) -> N
        ensures { result ≡ self.below }
    {
        self.below
    }
}

impl<N: Network, K: Change> Network for Layer<N, K> {
    ghost meaning = { λ n. changed (K.Change.shown n.change) (N.Network.meaning n.below) };

    ghost kept = { λ a b. (a.change ≡ b.change) × N.Network.kept a.below b.below };

    ghost sound = { λ n.
        let below = N.Network.meaning n.below in
        sound_changed (K.Change.shown n.change) below
        (λ j l. shown_sound _ _ _ (K.Change.shows n.change) (K.Change.more n.change) (K.Change.most n.change) below.sites j l)
        (N.Network.sound n.below) };

    ghost reflexive = { Prim.search rules };

    ghost transitive = { λ a b c x y. (x.0 ∙ y.0, N.Network.transitive a.below b.below c.below x.1 y.1) };

    ghost alike = { λ a b x.
        alike_changed (K.Change.shown a.change) (shown_retaken _ _ _ (K.Change.shows a.change)) (N.Network.meaning a.below) (N.Network.meaning b.below) (N.Network.alike a.below b.below x.1)
        ∙ ap (λ c. cleared (changed (K.Change.shown c) (N.Network.meaning b.below))) x.0 };

    fn sites(&self) -> u16 {
        self.below.sites()
    }

    #[tactic(auto, using(networks::proofs::Numbering::length_numbered))]
    fn links(&self) -> u16 {
        self.below.links()
    }

    fn ends(&self, link: u16) -> Result<(u16, u16), NetworkRefusal> {
        self.below.ends(link)
    }

    fn lengths(&self, link: u16) -> Result<(u32, u32), NetworkRefusal> {
        let (metres, poles) = self.below.lengths(link)?;
        Ok((self.change.metres(link, metres), poles))
    }

    fn channels(&self, link: u16) -> Result<(u16, u16), NetworkRefusal> {
        self.below.channels(link)
    }

    fn is_lit(&self, link: u16) -> Result<bool, NetworkRefusal> {
        let lit = self.below.is_lit(link)?;
        Ok(lit && !self.change.is_dark(link))
    }

    fn take(&mut self, link: u16) -> Result<(), NetworkRefusal> {
        if !self.is_lit(link)? {
            return Err(NetworkRefusal::NotUsable);
        }
        self.below.take(link)
    }

    fn give(&mut self, link: u16) -> Result<(), NetworkRefusal> {
        self.below.give(link)
    }
}
