//! The queue: sites with their costs over a table that is lent to it.
ghost use Rattle.std.specs.Prelude.{◌≡◌, ℕ, ◌<◌, ◌≤◌, length, None, ◌==◌};
ghost use Rattle.queue.specs.Entries.{entry_at, Once, Below, PlaceOf};
ghost use Rattle.queue.specs.Heaps.{Heap};

use crate::changing::{add, change, remove_first};
use crate::entries::Entry;
use costs::Cost;

/// Why a site was not taken in: its number is not below the number of entries.
#[derive(Clone, Copy, PartialEq, Eq, Debug)]
pub struct NoRoom;

/// Sites with their costs, each once. It has room for as many sites as the table has entries.
// A lent table and how much of it is in use: no heap is wanted while planning.
#[derive(Drop)]
pub struct Queue<'a, C: Cost> {
    entries: &'a mut [Entry<C>],
    len: usize,
    ghost within: { len ≤ length entries.now },
    ghost once: { Once (entry_at C.Cost.ops entries.now) len },
    ghost below: { Below (entry_at C.Cost.ops entries.now) len (length entries.now) },
    ghost order: { Heap C.Cost.ops (entry_at C.Cost.ops entries.now) len },
}

impl<'a, C: Cost + Copy> Queue<'a, C> {
    ghost use Rattle.queue.specs.Queues.{Offered, Put, Taken, held_in, room_of, size_of};

    /// A queue over a table, with no site in it.
    pub fn new(entries: &'a mut [Entry<C>]) -> Queue<'a, C>
        ensures empty { (w : ℕ) → held_in C.Cost.ops result w ≡ None }
        ensures room { room_of result ≡ length entries.old }
    {
        Queue { entries, len: 0 }
    }

    /// How many sites are in the queue.
    pub fn len(&self) -> usize
        ensures { result ≡ size_of C.Cost.ops self.now }
    {
        self.len // one entry for each site
    }

    /// Whether no site is in the queue.
    pub fn is_empty(&self) -> bool
        ensures { result ≡ (size_of C.Cost.ops self.now == 0) }
    {
        self.len == 0
    }

    /// The place of a site's entry, if the site is in the queue.
    fn place_of(&self, site: u16) -> Option<usize>
        ensures { PlaceOf (entry_at C.Cost.ops self.now.entries.now) self.now.len site result }
    {
        self.entries[..self.len]
            .iter()
            .position(|entry| entry.site == site)
    }

    /// Puts a site in at a cost, in its own entry or in a new one.
    fn put(&mut self, site: u16, cost: C)
        requires { site < room_of self.old }
        ensures { Put C.Cost.ops self.old site cost self.new }
    {
        match self.place_of(site) {
            Some(at) => change(&mut self.entries[..self.len], at, cost),
            None => {
                add(&mut self.entries[..=self.len], Entry { cost, site });
                self.len += 1;
            }
        }
    }

    /// Takes a site in at a cost. A site that is in the queue has that cost from then on.
    pub fn offer(&mut self, site: u16, cost: C) -> Result<(), NoRoom>
        ensures { Offered C.Cost.ops self.old site cost result self.new }
    {
        if site as usize >= self.entries.len() {
            return Err(NoRoom);
        }
        self.put(site, cost);
        Ok(())
    }

    /// Takes the site of the least cost out, of equal costs the lowest site.
    pub fn take_least(&mut self) -> Option<Entry<C>>
        ensures { Taken C.Cost.ops self.old result self.new }
    {
        let count = self.len;
        if count == 0 {
            return None;
        }
        let first = remove_first(&mut self.entries[..count]);
        self.len = count - 1;
        Some(first)
    }
}
