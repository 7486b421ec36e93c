//! The reader that takes record after record off a sheet.
ghost use Rattle.std.specs.Prelude.{◌≡◌, ◌≤◌, length, drop};
ghost use Rattle.sheet_records.specs.Records.{Next};

use crate::faults::RecordFault;
use crate::record::{Placed, record_of};
use records::first_record;

/// A lent sheet and the place up to which it has been read.
#[derive(Drop)]
pub struct RecordReader<'a> {
    sheet: &'a [u8],
    place: usize,
    ghost within: { place ≤ length sheet.now },
}

impl<'a> RecordReader<'a> {
    /// A reader at the start of a sheet.
    pub fn new(sheet: &'a [u8]) -> RecordReader<'a>
        ensures sheet { result.sheet.now ≡ sheet.now }
        ensures place { result.place ≡ 0 }
    {
        RecordReader { sheet, place: 0 }
    }

    /// The next record and its place, `None` where no byte is left. After a fault the reader stays where it is.
    pub fn next(&mut self) -> Result<Option<Placed<'a>>, RecordFault>
        ensures next { Next (drop self.old.place self.old.sheet.now) self.old.place result self.new.place }
        ensures sheet { self.new.sheet.now ≡ self.old.sheet.now }
    {
        let sheet = self.sheet;
        let place = self.place;
        let left = &sheet[place..];
        if left.is_empty() {
            return Ok(None);
        }
        let head = first_record(left).ok_or(RecordFault::CutShort { place })?;
        let record = record_of(head.kind, head.payload).ok_or(RecordFault::WrongShape { place })?;
        self.place = sheet.len() - head.rest.len();
        Ok(Some(Placed { place, record }))
    }
}
