//! What the network that owns its links does: it is begun empty, grows link by link, and meets the trait.
ghost use Rattle.std.specs.Prelude.{◌≡◌};
ghost use Rattle.networks.specs.Changing.{cleared};
ghost use Rattle.networks.specs.Owning.{owned_meaning, Begun, Added};
ghost use Rattle.networks.specs.Telling.{told};
ghost use Rattle.std.proofs.Common.{rules};

use crate::building::BuildRefusal;
use crate::limits::{FEWEST_SITES, MOST_LINKS, MOST_SITES};
use crate::model::{Link, NetworkRefusal};
use crate::network::Network;
use crate::owned::OwnedNetwork;
use std::alloc::Global;

impl OwnedNetwork {
    /// A network of so many sites and no link yet.
    pub fn empty(heap: Global, sites: u16) -> Result<OwnedNetwork, BuildRefusal>
        ensures { Begun sites result }
    {
        if !(FEWEST_SITES..=MOST_SITES).contains(&sites) {
            return Err(BuildRefusal::OutsideLimits);
        }
        let links = Vec::new(heap);
        Ok(OwnedNetwork { sites, links })
    }

    /// One link more, after the others.
    #[tactic(auto, using(crate::proofs::Soundness::sound_push))]
    pub fn add(&mut self, link: Link) -> Result<(), BuildRefusal>
        ensures { Added (owned_meaning self.old) link result (owned_meaning self.new) }
    {
        if self.links.len() >= usize::from(MOST_LINKS) || !link.is_sound(self.sites) {
            return Err(BuildRefusal::OutsideLimits);
        }
        self.links.push(link)?;
        Ok(())
    }

    // The link of a number.
    fn link(&self, link: u16) -> Result<Link, NetworkRefusal>
        ensures { result ≡ told (λ l. l) (owned_meaning self.now) link }
    {
        self.links
            .get(usize::from(link))
            .copied()
            .ok_or(NetworkRefusal::LinkTooHigh)
    }
}

impl Network for OwnedNetwork {
    ghost meaning = { owned_meaning };

    ghost kept = { λ a b. cleared (owned_meaning a) ≡ cleared (owned_meaning b) };

    ghost sound = { Prim.search rules };

    ghost reflexive = { Prim.search rules };

    ghost transitive = { Prim.search rules };

    ghost alike = { Prim.search rules };

    fn sites(&self) -> u16 {
        self.sites
    }

    fn links(&self) -> u16 {
        self.links.len() as u16
    }

    fn ends(&self, link: u16) -> Result<(u16, u16), NetworkRefusal> {
        let one = self.link(link)?;
        Ok((one.start, one.end))
    }

    fn lengths(&self, link: u16) -> Result<(u32, u32), NetworkRefusal> {
        let one = self.link(link)?;
        Ok((one.metres, one.poles))
    }

    fn channels(&self, link: u16) -> Result<(u16, u16), NetworkRefusal> {
        let one = self.link(link)?;
        Ok((one.channels, one.taken))
    }

    fn is_lit(&self, link: u16) -> Result<bool, NetworkRefusal> {
        let one = self.link(link)?;
        Ok(one.lit)
    }

    fn take(&mut self, link: u16) -> Result<(), NetworkRefusal> {
        let mut one = self.link(link)?;
        if !one.is_usable() {
            return Err(NetworkRefusal::NotUsable);
        }
        one.taken += 1;
        self.links[usize::from(link)] = one;
        Ok(())
    }

    fn give(&mut self, link: u16) -> Result<(), NetworkRefusal> {
        let mut one = self.link(link)?;
        if one.taken == 0 {
            return Err(NetworkRefusal::NoneTaken);
        }
        one.taken -= 1;
        self.links[usize::from(link)] = one;
        Ok(())
    }
}
