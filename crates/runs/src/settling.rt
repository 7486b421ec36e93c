//! One turn of a run: a site is settled and spreads its label.
ghost use Rattle.std.specs.Prelude.{◌≡◌, ℕ, ◌+◌, ◌<◌, ◌≤◌, ◌∷◌, reverse, take, Some};
ghost use Rattle.queue.specs.Queues.{room_of};
ghost use Rattle.least_pairs.specs.Runs.{settled};
ghost use Rattle.runs.specs.Lent.{SameTables, labels_of, state_of};
ghost use Rattle.runs.specs.Turns.{Turn, Waiting, Offering};

use crate::stage::Stage;
use crate::tables::{Label, RunTables};
use costs::Cost;
use queue::Queue;

/// Offers a label to a site, which waits in the queue at its cost where it takes the label.
fn offer_label<C: Cost + Copy>(
    site: u16,
    label: Label<C>,
    tables: &mut RunTables<C>,
    queue: &mut Queue<C>,
)
    requires within { (site < tables.old.sites) × (site < room_of queue.old) }
    requires real { label.link < 65535 }
    ensures same { SameTables tables.old tables.new }
    ensures order { tables.new.order.now ≡ tables.old.order.now }
    ensures offering { Offering C.Cost.ops site (record { cost = label.cost; link = label.link; turn = label.turn }) (labels_of C.Cost.ops tables.old) (labels_of C.Cost.ops tables.new) queue.old queue.new }
{
    if tables.relax(site, label) {
        queue.offer(site, label.cost).unwrap();
    }
}

/// Settles a site, whose label costs so much, after so many others.
// A turn is about all of these, and only here do they meet: a struct of them would be made for this one call.
pub fn settle<C: Cost + Copy, S: Stage<C>>(
    stage: &mut S,
    site: u16,
    cost: C,
    count: u16,
    links: u16,
    tables: &mut RunTables<C>,
    queue: &mut Queue<C>,
)
    requires ready { S.Stage.ready stage.old (reverse (take count tables.old.order.now)) }
    requires turn { Turn C.Cost.ops (S.Stage.job stage.old) (labels_of C.Cost.ops tables.old) site cost (reverse (take count tables.old.order.now)) }
    requires links { (links ≡ (S.Stage.job stage.old).links) × (links < 65535) }
    requires room { ((S.Stage.job stage.old).sites ≤ tables.old.sites) × (count < tables.old.sites) }
    requires waiting { Waiting C.Cost.ops (S.Stage.job stage.old).sites queue.old (labels_of C.Cost.ops tables.old) (site ∷ reverse (take count tables.old.order.now)) }
    ensures same { SameTables tables.old tables.new }
    ensures job { S.Stage.job stage.new ≡ S.Stage.job stage.old }
    ensures ready { S.Stage.ready stage.new (reverse (take (count + 1) tables.new.order.now)) }
    ensures state { state_of C.Cost.ops tables.new (count + 1) ≡ settled C.Cost.ops (S.Stage.job stage.old) (state_of C.Cost.ops tables.old count) (Some (site, cost)) }
    ensures waiting { Waiting C.Cost.ops (S.Stage.job stage.old).sites queue.new (labels_of C.Cost.ops tables.new) (reverse (take (count + 1) tables.new.order.now)) }
{
    tables.settle(count, site);
    stage.strike(site);
    for link in 0..links {
        if let Some(found) = stage.offer(site, link) {
            let label = Label {
                cost: cost.sum(found.1),
                link,
                turn: site,
            };
            offer_label(found.0, label, tables, queue);
        }
    }
}
