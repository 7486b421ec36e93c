//! What the records of a sheet, taken one after the other, come to.
ghost use Rattle.std.specs.Prelude.{◌≡◌};
ghost use Rattle.sheets.specs.Gathering.{IsSheet, Gathers};

use crate::names::Names;
use networks::building::BuildRefusal;
use networks::owned::OwnedNetwork;
use sheet_records::reader::RecordReader;
use sheet_records::record::Record;
use std::alloc::{AllocError, Global};

/// A sheet that was read: its network, and its sites' names as bytes borrowed from the sheet.
#[derive(Drop)]
pub struct Sheet<'a> {
    pub network: OwnedNetwork,
    pub names: Names<'a>,
}

impl<'a> Sheet<'a> {
    ghost use Rattle.std.specs.Prelude.{IfOk};
    ghost use Rattle.sheet_records.specs.Records.{item};
    ghost use Rattle.sheets.specs.Gathering.{fields_of, Storable, grown};

    // Stores what one record says; a header is in the number of sites already.
    fn store(&mut self, next: Record<'a>) -> Result<(), AllocError>
        requires { Storable (fields_of self.old) (item next) }
        ensures { IfOk result (λ _.
            fields_of self.new ≡ grown (fields_of self.old) (item next.entry)) }
    {
        match next {
            Record::Header { .. } => Ok(()),
            Record::Name { site, name } => self.names.add(site, name),
            Record::Link(link) => match self.network.add(link) {
                Ok(()) => Ok(()),
                Err(BuildRefusal::Memory) => Err(AllocError),
                Err(BuildRefusal::OutsideLimits) => unreachable!(),
            },
        }
    }
}

// The network and the names of bytes that are a sheet of so many sites. Only memory can be wanting.
pub(crate) fn gather<'a>(heap: Global, sites: u16, sheet: &'a [u8]) -> Result<Sheet<'a>, AllocError>
    requires { IsSheet sheet.now sites }
    ensures { Gathers sheet.now result }
{
    let mut gathered = Sheet {
        network: OwnedNetwork::empty(heap, sites).unwrap(),
        names: Names::none(heap),
    };
    let mut reader = RecordReader::new(sheet);
    while let Some(next) = reader.next().unwrap() {
        gathered.store(next.record)?;
    }
    Ok(gathered)
}
