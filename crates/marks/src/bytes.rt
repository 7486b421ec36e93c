//! Marks in a lent table with a byte for each site: zero where the site is not marked.
ghost use Rattle.std.specs.Prelude.{◌≡◌, length, slice_set};
ghost use Rattle.marks.specs.Sets.{in_bytes};

use crate::kind::Marks;

/// A byte for each site.
#[derive(Drop)]
pub struct Bytes<'a> {
    bytes: &'a mut [u8],
}

impl<'a> Bytes<'a> {
    /// The marks that a table holds.
    pub fn new(bytes: &'a mut [u8]) -> Bytes<'a>
        ensures { result.bytes.now ≡ bytes.old }
    {
        Bytes { bytes }
    }

    /// Writes the byte of a site, where the table has one.
    fn write(&mut self, site: u16, byte: u8)
        ensures { self.new.bytes.now ≡ slice_set self.old.bytes.now site byte }
    {
        // By its place: what a write through `get_mut` leaves in a lent table gets no proof.
        let at = site as usize;
        if at < self.room() {
            self.bytes[at] = byte;
        }
    }
}

impl<'a> Marks for Bytes<'a> {
    ghost rooms = { λ m. length m.bytes.now };

    ghost marked = { λ m. in_bytes m.bytes.now };

    fn room(&self) -> usize {
        self.bytes.len()
    }

    fn is_marked(&self, site: u16) -> bool {
        self.bytes.get(site as usize).is_some_and(|byte| *byte != 0)
    }

    fn mark(&mut self, site: u16) {
        self.write(site, 1);
    }

    fn wipe(&mut self, site: u16) {
        self.write(site, 0);
    }

    fn clear(&mut self) {
        self.bytes.fill(0);
    }
}
