//! How each sample is made.
use networks::model::Link;
use records::{WriteFault, push_record};
use sheet_writing::{push_header, push_link, push_name};
use std::alloc::Global;

// The exchange's links: start, end, metres, pole metres.
const LINKS: [(u16, u16, u32, u32); 7] = [
    (0, 1, 100, 0),
    (0, 3, 150, 60),
    (1, 2, 150, 0),
    (1, 4, 100, 0),
    (3, 4, 150, 20),
    (2, 5, 150, 150),
    (4, 5, 100, 0),
];

/// The exchange's header, which says seven links, its names, and its first links, as many as are asked for.
pub fn exchange(heap: Global, links: usize) -> Result<Vec<u8>, WriteFault> {
    let mut out = Vec::new(heap);
    push_header(&mut out, 6, 7)?;
    push_name(&mut out, 0, b"Exchange")?;
    push_name(&mut out, 1, b"Mill Lane")?;
    push_name(&mut out, 2, b"Canal Bridge")?;
    push_name(&mut out, 4, b"Market Square")?;
    push_name(&mut out, 5, b"Weir")?;
    for numbers in LINKS.iter().take(links) {
        let (start, end, metres, poles) = *numbers;
        push_link(&mut out, Link::lit(start, end, metres, poles, 1))?;
    }
    Ok(out)
}

// A name of 32 bytes for each of 256 sites.
fn push_long_names(out: &mut Vec<u8>) -> Result<(), WriteFault> {
    for site in 0..256u16 {
        let mut name = *b"A site with a name of 32 bytes: ";
        name[31] = b'!' + (site % 90) as u8;
        push_name(out, site, &name)?;
    }
    Ok(())
}

/// 256 sites, a name of 32 bytes for each, and 2,048 links of the greatest numbers.
pub fn largest(heap: Global) -> Result<Vec<u8>, WriteFault> {
    let mut out = Vec::new(heap);
    push_header(&mut out, 256, 2048)?;
    push_long_names(&mut out)?;
    for k in 0..2048u16 {
        let start = k % 256;
        let end = (k + 1 + k / 256) % 256;
        push_link(&mut out, Link::lit(start, end, 1_000_000, 1_000_000, 255))?;
    }
    Ok(out)
}

pub fn cut_short(heap: Global) -> Result<Vec<u8>, WriteFault> {
    let mut out = exchange(heap, 7)?;
    let left = out.len().saturating_sub(3);
    out.truncate(left);
    Ok(out)
}

pub fn unknown_kind(heap: Global) -> Result<Vec<u8>, WriteFault> {
    let mut out = exchange(heap, 7)?;
    push_record(&mut out, 7, b"", b"")?;
    Ok(out)
}

pub fn name_after_links(heap: Global) -> Result<Vec<u8>, WriteFault> {
    let mut out = exchange(heap, 7)?;
    push_name(&mut out, 5, b"Weir")?;
    Ok(out)
}

pub fn too_many_sites(heap: Global) -> Result<Vec<u8>, WriteFault> {
    let mut out = Vec::new(heap);
    push_header(&mut out, 257, 0)?;
    Ok(out)
}

pub fn too_many_links(heap: Global) -> Result<Vec<u8>, WriteFault> {
    let mut out = exchange(heap, 7)?;
    push_link(&mut out, Link::lit(5, 0, 1, 0, 1))?;
    Ok(out)
}
