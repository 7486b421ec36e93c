//! A record of a sheet, and how it is read from its kind and its payload.
ghost use Rattle.sheet_records.specs.Records.{Parsed};

use networks::model::Link;

/// A record of a sheet. A name's bytes are borrowed from the sheet.
#[derive(Clone, Copy)]
pub enum Record<'a> {
    Header { sites: u16, links: u16 },
    Name { site: u16, name: &'a [u8] },
    Link(Link),
}

/// A record, and the place in the sheet where it begins.
#[derive(Clone, Copy)]
pub struct Placed<'a> {
    pub place: usize,
    pub record: Record<'a>,
}

// The record of a kind and a payload; `None` where the kind is unknown or the payload's length is wrong for it.
pub(crate) fn record_of<'a>(kind: u16, payload: &'a [u8]) -> Option<Record<'a>>
    ensures { Parsed kind payload.now result }
{
    match (kind, payload) {
        (1, [a, b, c, d]) => Some(Record::Header {
            sites: u16::from_le_bytes([*a, *b]),
            links: u16::from_le_bytes([*c, *d]),
        }),
        (2, [a, b, name @ ..]) if (1..=32).contains(&name.len()) => Some(Record::Name {
            site: u16::from_le_bytes([*a, *b]),
            name,
        }),
        // The link is written out: over `Link::lit` the proof that these are its bytes does not close.
        (3, [a, b, c, d, e, f, g, h, i, j, k, l, m, n]) => Some(Record::Link(Link {
            start: u16::from_le_bytes([*a, *b]),
            end: u16::from_le_bytes([*c, *d]),
            metres: u32::from_le_bytes([*e, *f, *g, *h]),
            poles: u32::from_le_bytes([*i, *j, *k, *l]),
            channels: u16::from_le_bytes([*m, *n]),
            taken: 0,
            lit: true,
        })),
        _ => None,
    }
}
