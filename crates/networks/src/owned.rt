//! The network that owns its links, as a sheet or a street grid gives them.
ghost use Rattle.std.specs.Prelude.{◌≡◌, ◌≤◌, true, vec_len};
ghost use Rattle.networks.specs.Meaning.{all_sound};

use crate::model::Link;

#[derive(Drop)]
pub struct OwnedNetwork {
    pub(crate) sites: u16,
    pub(crate) links: Vec<Link>,
    ghost fewest_sites: { 2 ≤ sites },
    ghost most_sites: { sites ≤ 256 },
    ghost most_links: { vec_len links ≤ 2048 },
    ghost each_link: { all_sound sites links.items ≡ true },
}
