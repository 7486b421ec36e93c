//! How the sheet of each benchmark network is made.
use crate::numbers::Numbers;
use grids::{GridPlan, street_grid};
use networks::model::Link;
use networks::network::Network;
use records::WriteFault;
use sheet_writing::{push_header, push_link};
use std::alloc::Global;

// A lit link of so many metres, none of them on poles, with one channel.
fn link(start: u16, end: u16, metres: u32) -> Link {
    Link::lit(start, end, metres, 0, 1)
}

// A link between two of 256 sites, of 100 to 8,291 metres.
fn drawn_link(numbers: &mut Numbers) -> Link {
    let drawn = numbers.draw();
    let start = (drawn & 0xff) as u8;
    let other = ((drawn >> 8) & 0xff) as u8;
    let end = if other == start {
        other.wrapping_add(1)
    } else {
        other
    };
    let metres = 100 + ((drawn >> 16) & 0x1fff) as u32;
    link(u16::from(start), u16::from(end), metres)
}

/// 256 sites and 2,048 links between them, drawn from a fixed seed.
pub fn random(heap: Global) -> Result<Vec<u8>, WriteFault> {
    let mut numbers = Numbers::seeded(1984);
    let mut out = Vec::new(heap);
    push_header(&mut out, 256, 2048)?;
    for _ in 0..2048u16 {
        push_link(&mut out, drawn_link(&mut numbers))?;
    }
    Ok(out)
}

// The sheet of a network's links, each with one channel and nothing on poles.
fn sheet_of<N: Network>(heap: Global, network: &N) -> Result<Vec<u8>, WriteFault> {
    let mut out = Vec::new(heap);
    push_header(&mut out, network.sites(), network.links())?;
    for number in 0..network.links() {
        let (start, end) = network.ends(number).unwrap();
        let (metres, _) = network.lengths(number).unwrap();
        push_link(&mut out, link(start, end, metres))?;
    }
    Ok(out)
}

/// The street grid of 16 columns and 16 rows, with streets of 100 metres along the rows and of 150 across.
pub fn grid(heap: Global) -> Result<Vec<u8>, WriteFault> {
    let plan = GridPlan {
        columns: 16,
        rows: 16,
        along: 100,
        across: 150,
        channels: 1,
    };
    let network = street_grid(heap, plan).map_err(|_| WriteFault::Memory)?;
    sheet_of(heap, &network)
}

/// A chain of 128 sites, each joined to the next by two links, with one more site behind each over a single link.
pub fn chain(heap: Global) -> Result<Vec<u8>, WriteFault> {
    let mut out = Vec::new(heap);
    push_header(&mut out, 256, 382)?;
    for site in 0..127u16 {
        push_link(&mut out, link(site, site + 1, 100))?;
        push_link(&mut out, link(site, site + 1, 101))?;
    }
    for site in 0..128u16 {
        push_link(&mut out, link(site, site + 128, 70))?;
    }
    Ok(out)
}
