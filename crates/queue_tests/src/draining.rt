//! A queue is emptied into a list of sites.
ghost use Rattle.std.specs.Prelude.{◌≡◌, ℕ, None};
ghost use Rattle.queue.specs.Queues.{held_in};

use costs::Cost;
use queue::Queue;

/// Takes all sites out, and writes as many as there are places for, in the order in which they come.
pub fn drain<C: Cost + Copy>(queue: &mut Queue<C>, sites: &mut [u16]) -> usize
    ensures { (w : ℕ) → held_in C.Cost.ops queue.new w ≡ None }
{
    // The places are counted: the queue is emptied even where it holds more sites than there are places.
    let mut written = 0;
    while let Some(next) = queue.take_least() {
        if written < sites.len() {
            sites[written] = next.site;
            written += 1;
        }
    }
    written
}
