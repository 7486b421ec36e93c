//! A run from its beginning to its end.
ghost use Rattle.std.specs.Prelude.{◌≡◌, ℕ, ◌<◌, ◌≤◌, [], reverse, length, take};
ghost use Rattle.least_pairs.specs.Runs.{outcome};
ghost use Rattle.runs.specs.Lent.{SameTables};
ghost use Rattle.runs.specs.Tables.{Holds};
ghost use Rattle.runs.specs.Turns.{Runnable};

use crate::settling::settle;
use crate::stage::Stage;
use crate::tables::RunTables;
use costs::Cost;
use queue::{Entry, Queue};

/// Settles sites from a root on, the least label first, until none is left. The tables then hold the labels, and the settled sites in their order; it says how many they are.
pub fn run<C: Cost + Copy, S: Stage<C>>(
    stage: &mut S,
    root: u16,
    links: u16,
    tables: &mut RunTables<C>,
    entries: &mut [Entry<C>],
) -> u16
    requires runnable { Runnable C.Cost.ops (S.Stage.job stage.old) root }
    requires ready { S.Stage.ready stage.old [] }
    requires links { (links ≡ (S.Stage.job stage.old).links) × (links < 65535) }
    requires sites { (S.Stage.job stage.old).sites < 65536 }
    requires room { ((S.Stage.job stage.old).sites ≤ tables.old.sites) × ((S.Stage.job stage.old).sites ≤ length entries.old) }
    ensures same { SameTables tables.old tables.new }
    ensures job { S.Stage.job stage.new ≡ S.Stage.job stage.old }
    ensures ready { S.Stage.ready stage.new (outcome C.Cost.ops (S.Stage.job stage.old) root).order }
    ensures labels { Holds C.Cost.ops (S.Stage.job stage.old).sites tables.new.costs.now tables.new.links.now tables.new.turns.now (outcome C.Cost.ops (S.Stage.job stage.old) root).labels }
    ensures count { result ≡ length (outcome C.Cost.ops (S.Stage.job stage.old) root).order }
    ensures order { reverse (take result tables.new.order.now) ≡ (outcome C.Cost.ops (S.Stage.job stage.old) root).order }
{
    tables.begin(root);
    let mut queue = Queue::new(entries);
    queue.offer(root, C::zero()).unwrap();
    // Counted by hand: the count is answered, and the queue has no list of what will come out.
    let mut count = 0;
    while let Some(next) = queue.take_least() {
        settle(
            stage, next.site, next.cost, count, links, tables, &mut queue,
        );
        count += 1;
    }
    count
}
