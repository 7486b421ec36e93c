//! Judging a sheet: its order, its limits and its count, by a tally of four numbers and no memory.
ghost use Rattle.std.specs.Prelude.{◌≡◌, ◌&&◌, nat_le};
ghost use Rattle.sheet_format.specs.Rules.{printable};
ghost use Rattle.sheets.specs.Judging.{Judges};

use crate::faults::SheetFault;
use networks::limits::{FEWEST_SITES, MOST_LINKS, MOST_SITES};
use networks::model::Link;
use sheet_records::faults::RecordFault;
use sheet_records::reader::RecordReader;
use sheet_records::record::{Placed, Record};

// What the records so far say, as far as the next one depends on it.
#[derive(Clone, Copy)]
struct Tally {
    sites: u16,
    // How many links the header says there are, and how many there were.
    count: u16,
    links: u16,
    // The least site that may be named next.
    next_site: u16,
}

// Whether a byte can be printed: it lies between the blank and the tilde.
fn is_visible(byte: u8) -> bool
    ensures { result ≡ nat_le 32 byte && nat_le byte 126 }
{
    (32..=126).contains(&byte)
}

// Whether each byte of a name can be printed.
fn is_printable(name: &[u8]) -> bool
    ensures { result ≡ printable name.now }
{
    name.iter().all(|byte| is_visible(*byte))
}

impl Tally {
    ghost use Rattle.sheet_format.specs.Rules.{Fields, unbegun, begun};
    ghost use Rattle.sheet_records.specs.Records.{item};
    ghost use Rattle.sheets.specs.Judging.{tally, Judged, Finished};

    // Begins with the first record, which has to be a header within its limits.
    fn begin(first: Placed) -> Result<Tally, SheetFault>
        ensures { Judged unbegun (item first.entry.record) first.entry.place result }
    {
        let Placed { place, record } = first;
        let Record::Header { sites, links } = record else {
            return Err(SheetFault::OutOfOrder { place });
        };
        if !(FEWEST_SITES..=MOST_SITES).contains(&sites) || links > MOST_LINKS {
            return Err(SheetFault::OutsideLimits { place });
        }
        Ok(Tally {
            sites,
            count: links,
            links: 0,
            next_site: 0,
        })
    }

    // After a name, which comes by rising site and before the links.
    fn after_name(self, place: usize, site: u16, name: &[u8]) -> Result<Tally, SheetFault>
        ensures { (f : Fields) → self ≡ tally f →
            Judged (begun f) (item (Record.Name site name.entry)) place result }
    {
        if self.links != 0 || site < self.next_site {
            return Err(SheetFault::OutOfOrder { place });
        }
        if site >= self.sites || !is_printable(name) {
            return Err(SheetFault::OutsideLimits { place });
        }
        Ok(Tally {
            next_site: site + 1,
            ..self
        })
    }

    // After a link, which is sound and not one too many.
    fn after_link(self, place: usize, link: Link) -> Result<Tally, SheetFault>
        ensures { (f : Fields) → self ≡ tally f →
            Judged (begun f) (item (Record.Link link)) place result }
    {
        if !link.is_sound(self.sites) {
            return Err(SheetFault::OutsideLimits { place });
        }
        if self.links >= self.count {
            return Err(SheetFault::LinkCount { place });
        }
        Ok(Tally {
            links: self.links + 1,
            ..self
        })
    }

    // After the next record behind the header.
    fn after(self, next: Placed) -> Result<Tally, SheetFault>
        ensures { (f : Fields) → self ≡ tally f →
            Judged (begun f) (item next.entry.record) next.entry.place result }
    {
        let Placed { place, record } = next;
        match record {
            Record::Header { .. } => Err(SheetFault::OutOfOrder { place }),
            Record::Name { site, name } => self.after_name(place, site, name),
            Record::Link(link) => self.after_link(place, link),
        }
    }

    // The sites, where there are as many links as the header says; `place` is the sheet's end.
    fn finish(self, place: usize) -> Result<u16, SheetFault>
        ensures { (f : Fields) → self ≡ tally f → Finished f place result }
    {
        if self.links != self.count {
            return Err(SheetFault::LinkCount { place });
        }
        Ok(self.sites)
    }
}

// How many sites a sheet has, or its first fault. No other step of the reader refuses a sheet.
pub(crate) fn judge(sheet: &[u8]) -> Result<u16, SheetFault>
    ensures { Judges sheet.now result }
{
    let mut reader = RecordReader::new(sheet);
    let first = reader.next()?.ok_or(RecordFault::CutShort { place: 0 })?;
    let mut tally = Tally::begin(first)?;
    while let Some(next) = reader.next()? {
        tally = tally.after(next)?;
    }
    tally.finish(sheet.len())
}
