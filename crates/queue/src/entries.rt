//! Entries of a table, and which comes before which.
ghost use Rattle.std.specs.Prelude.{◌≡◌};
ghost use Rattle.queue.specs.Entries.{before};

use costs::Cost;

/// A site with its cost.
#[derive(Clone, Copy)]
pub struct Entry<C> {
    pub cost: C,
    pub site: u16,
}

impl<C: Cost + Copy> Entry<C> {
    /// Whether this entry comes before another: its cost is less, or the same and its site lower.
    // `PartialOrd` would ask each cost kind for an equality, and a kind compares by `less` alone.
    pub(crate) fn precedes(&self, other: &Entry<C>) -> bool
        ensures { result ≡ before C.Cost.ops self.now other.now }
    {
        self.cost.less(other.cost) || (!other.cost.less(self.cost) && self.site < other.site)
    }
}
