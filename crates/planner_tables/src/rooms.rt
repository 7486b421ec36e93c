//! Whether the tables that are lent are long enough.
ghost use Rattle.std.specs.Prelude.{◌≡◌};
ghost use Rattle.planner_tables.specs.Room.{all_fit, long_enough};

use crate::tables::Tables;
use marks::Marks;

/// Whether none of some lengths is below the number of sites.
fn all_fit(sites: u16, lengths: &[usize]) -> bool
    ensures { result ≡ all_fit sites lengths.now }
{
    lengths.iter().all(|length| sites as usize <= *length)
}

impl<'a, C, M: Marks> Tables<'a, C, M> {
    /// Whether each table has as many entries as there are sites, and the marks as much room.
    pub fn are_long_enough(&self, sites: u16) -> bool
        ensures { result ≡ long_enough sites M.Marks.rooms self.now }
    {
        let first = [
            self.distance.len(),
            self.tree.len(),
            self.parents.len(),
            self.order.len(),
        ];
        let second = [
            self.label.len(),
            self.entry.len(),
            self.turns.len(),
            self.struck.len(),
        ];
        let others = [
            self.piece.len(),
            self.part.len(),
            self.queue.len(),
            self.marks.room(),
        ];
        all_fit(sites, &first) && all_fit(sites, &second) && all_fit(sites, &others)
    }
}
