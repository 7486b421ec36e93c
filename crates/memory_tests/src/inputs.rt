//! The largest that the calls are given: 2,048 links, 256 names.
use networks::building::BuildRefusal;
use networks::model::Link;
use networks::owned::OwnedNetwork;
use sheet_writing::SiteName;
use std::alloc::{AllocError, Global};

/// The longest name of a site in a sheet.
pub const NAME: [u8; 32] = [b'n'; 32];

// One of 2,048 links between 256 sites; each has metres of its own.
fn link(number: u16) -> Link {
    let start = number % 256;
    let metres = 1 + u32::from(number);
    Link::lit(start, (start + 1) % 256, metres, metres, 255)
}

/// All 2,048 links.
pub fn links(heap: Global) -> Result<Vec<Link>, AllocError> {
    let mut links = Vec::with_capacity(heap, 2048)?;
    for number in 0..2048 {
        links.push(link(number))?;
    }
    Ok(links)
}

/// A name for each of 256 sites.
pub fn names(heap: Global, name: &[u8]) -> Result<Vec<SiteName>, AllocError> {
    let mut names = Vec::with_capacity(heap, 256)?;
    for site in 0..256 {
        names.push(SiteName { site, name })?;
    }
    Ok(names)
}

/// The network of all 2,048 links, added one after the other.
pub fn network(heap: Global) -> Result<OwnedNetwork, BuildRefusal> {
    let mut network = OwnedNetwork::empty(heap, 256)?;
    for number in 0..2048 {
        network.add(link(number))?;
    }
    Ok(network)
}
