//! How a heap of entries takes in, changes and gives up entries.
ghost use Rattle.std.specs.Prelude.{◌≡◌, ◌-◌, ◌<◌, length, take, Some, None};
ghost use Rattle.queue.specs.Entries.{entry_at, PlaceOf};
ghost use Rattle.queue.specs.Heaps.{IsHeap, Changed, First};

use crate::entries::Entry;
use crate::sifting::{rise, sink};
use costs::Cost;

/// Gives the entry at a place another cost.
pub(crate) fn change<C: Cost + Copy>(entries: &mut [Entry<C>], at: usize, cost: C)
    requires within { at < length entries.old }
    requires heap { IsHeap C.Cost.ops entries.old }
    ensures { Changed C.Cost.ops entries.old (entry_at C.Cost.ops entries.old at).site (Some cost) entries.new }
{
    let old = entries[at];
    let new = Entry { cost, ..old };
    entries[at] = new;
    if new.precedes(&old) {
        rise(entries, at);
    } else {
        sink(entries, at);
    }
}

/// Puts an entry of a new site in the last place, after the others.
pub(crate) fn add<C: Cost + Copy>(entries: &mut [Entry<C>], entry: Entry<C>)
    requires some { 0 < length entries.old }
    requires heap { IsHeap C.Cost.ops (take (length entries.old - 1) entries.old) }
    requires away { PlaceOf (entry_at C.Cost.ops entries.old) (length entries.old - 1) entry.site None }
    ensures { Changed C.Cost.ops (take (length entries.old - 1) entries.old) entry.site (Some entry.cost) entries.new }
{
    let last = entries.len() - 1;
    entries[last] = entry;
    rise(entries, last);
}

/// Takes the entry that comes before all others out, and leaves the others in all places but the last.
pub(crate) fn remove_first<C: Cost + Copy>(entries: &mut [Entry<C>]) -> Entry<C>
    requires some { 0 < length entries.old }
    requires heap { IsHeap C.Cost.ops entries.old }
    ensures first { First C.Cost.ops entries.old result }
    ensures left { Changed C.Cost.ops entries.old result.site None (take (length entries.old - 1) entries.new) }
{
    let first = entries[0];
    let last = entries.len() - 1;
    entries.swap(0, last);
    sink(&mut entries[..last], 0);
    first
}
