//! How entries rise and sink in a heap.
ghost use Rattle.std.specs.Prelude.{◌<◌, length};
ghost use Rattle.queue.specs.Entries.{entry_at, Once};
ghost use Rattle.queue.specs.Heaps.{HeapAbove, HeapBelow, LeastBelow, Sifted};

use crate::entries::Entry;
use costs::Cost;

/// Lets the entry at a place rise until it does not come before the one above it.
pub(crate) fn rise<C: Cost + Copy>(entries: &mut [Entry<C>], from: usize)
    requires within { from < length entries.old }
    requires once { Once (entry_at C.Cost.ops entries.old) (length entries.old) }
    requires order { HeapAbove C.Cost.ops (entry_at C.Cost.ops entries.old) (length entries.old) from }
    ensures { Sifted C.Cost.ops entries.old entries.new }
{
    let mut at = from;
    // From a place to the one above it, not from place to place.
    while at > 0 {
        let above = (at - 1) / 2;
        if !entries[at].precedes(&entries[above]) {
            return;
        }
        entries.swap(at, above);
        at = above;
    }
}

/// The place of the least of the entries right below a place, if there are any.
fn least_below<C: Cost + Copy>(entries: &[Entry<C>], at: usize) -> Option<usize>
    ensures { LeastBelow C.Cost.ops (entry_at C.Cost.ops entries.now) (length entries.now) at result }
{
    if at >= entries.len() / 2 {
        return None;
    }
    let left = 2 * at + 1;
    let right = left + 1;
    if right < entries.len() && entries[right].precedes(&entries[left]) {
        Some(right)
    } else {
        Some(left)
    }
}

/// Lets the entry at a place sink until none right below comes before it.
pub(crate) fn sink<C: Cost + Copy>(entries: &mut [Entry<C>], from: usize)
    requires once { Once (entry_at C.Cost.ops entries.old) (length entries.old) }
    requires order { HeapBelow C.Cost.ops (entry_at C.Cost.ops entries.old) (length entries.old) from }
    ensures { Sifted C.Cost.ops entries.old entries.new }
{
    let mut at = from;
    while let Some(below) = least_below(entries, at) {
        if !entries[below].precedes(&entries[at]) {
            return;
        }
        entries.swap(at, below);
        at = below;
    }
}
