//! Writing a sheet, record by record or as a whole. No limits are asked, so that damaged sheets can be written too.
#![tactic(auto)]

ghost use Rattle.std.specs.Prelude.{◌≡◌, ◌+◌, ◌++◌, map, length};
ghost use Rattle.records.specs.Bytes.{le16, le32};
ghost use Rattle.sheet_format.specs.Items.{header, name as name_item, link as link_item};
ghost use Rattle.sheet_writing.specs.Writes.{Appended};
ghost use Rattle.sheet_writing.specs.Wholes.{named, long_name, whole_fields, Wrote};

use networks::model::Link;
use records::{WriteFault, push_record};
use std::alloc::Global;

// The longest name that a record's length can count, beside the two bytes of the site.
const MOST_NAME_BYTES: usize = 65_533;

/// Appends a header's record.
pub fn push_header(out: &mut Vec<u8>, sites: u16, links: u16) -> Result<(), WriteFault>
    ensures { Appended out.old.items out.new.items (header sites links) 4 result }
{
    push_record(out, 1, &sites.to_le_bytes(), &links.to_le_bytes())
}

/// Appends the record of a site's name; a name of more than 65,533 bytes does not fit its length and is refused.
pub fn push_name(out: &mut Vec<u8>, site: u16, name: &[u8]) -> Result<(), WriteFault>
    ensures { Appended out.old.items out.new.items (name_item (record { site = site; name = name.now })) (2 + length name.now) result }
{
    push_record(out, 2, &site.to_le_bytes(), name)
}

// A link's payload: its start, its end, its metres, those on poles, its channels.
fn link_bytes(link: Link) -> [u8; 14]
    ensures { result ≡ le16 link.start ++ (le16 link.end ++ (le32 link.metres ++ (le32 link.poles ++ le16 link.channels))) }
{
    let [a, b] = link.start.to_le_bytes();
    let [c, d] = link.end.to_le_bytes();
    let [e, f, g, h] = link.metres.to_le_bytes();
    let [i, j, k, l] = link.poles.to_le_bytes();
    let [m, n] = link.channels.to_le_bytes();
    [a, b, c, d, e, f, g, h, i, j, k, l, m, n]
}

/// Appends a link's record. A sheet does not tell whether a link is lit and which channels are taken.
pub fn push_link(out: &mut Vec<u8>, link: Link) -> Result<(), WriteFault>
    ensures { Appended out.old.items out.new.items (link_item link) 14 result }
{
    push_record(out, 3, &link_bytes(link), &[])
}

/// A site and the name that it bears.
#[derive(Clone, Copy)]
pub struct SiteName<'a> {
    pub site: u16,
    pub name: &'a [u8],
}

// Whether one of the names is too long for a record's length.
fn has_long_name(names: &[SiteName]) -> bool
    ensures { result ≡ long_name (map named names.now) }
{
    names.iter().any(|name| name.name.len() > MOST_NAME_BYTES)
}

/// The bytes of a sheet: its header, which counts the links, its names and its links. What is too
/// long is refused before memory is asked for.
pub fn write(
    heap: Global,
    sites: u16,
    names: &[SiteName],
    links: &[Link],
) -> Result<Vec<u8>, WriteFault>
    ensures { Wrote (whole_fields sites (map named names.now) links.now) result }
{
    let count = u16::try_from(links.len()).map_err(|_| WriteFault::TooLong)?;
    if has_long_name(names) {
        return Err(WriteFault::TooLong);
    }
    let mut out = Vec::new(heap);
    push_header(&mut out, sites, count)?;
    for name in names {
        push_name(&mut out, name.site, name.name)?;
    }
    for link in links {
        push_link(&mut out, *link)?;
    }
    Ok(out)
}
