//! Both runs of a planning, one after the other.
ghost use Rattle.std.specs.Prelude.{◌≡◌, ℕ, ◌<◌, ◌≤◌, length};
ghost use Rattle.pairs.specs.Reading.{first_of, second_of};
ghost use Rattle.runs.specs.Lent.{SameTables};
ghost use Rattle.running.specs.Left.{Left};

use crate::running::{first_run, second_run};
use costs::Cost;
use networks::network::Network;
use queue::Entry;
use runs::RunTables;
use stages::FirstRun;

/// What the first run from a root left in its tables, where it reached so many sites.
// Here and in the runs themselves root, tables and queue are held to the network one by one: a struct of them all would be lent part by part, and the proof does not follow that.
fn left_in<'a, 't, N: Network, C: Cost>(
    network: &'a N,
    root: u16,
    tables: &'a RunTables<'t, C>,
    count: u16,
) -> FirstRun<'a, N, C>
    requires root { root < (N.Network.meaning network.now).sites }
    requires room { (N.Network.meaning network.now).sites ≤ tables.now.sites }
    requires left { Left C.Cost.ops (N.Network.meaning network.now).sites (first_of C.Cost.ops (N.Network.meaning network.now) root) tables.now.costs.now tables.now.links.now tables.now.turns.now tables.now.order.now count }
    ensures network { result.network.now ≡ network.now }
    ensures root { result.root ≡ root }
{
    let order = &*tables.order;
    let reached = &order[..count as usize];
    FirstRun {
        network,
        root,
        distance: &*tables.costs,
        tree: &*tables.links,
        parents: &*tables.turns,
        order: reached,
    }
}

/// Both runs from a root: fills the tables of the first and of the second.
// The tables of each run, the marks and the queue in parameters of their own, for the same reason.
pub fn both_runs<N: Network, C: Cost + Copy>(
    network: &N,
    root: u16,
    first: &mut RunTables<C>,
    second: &mut RunTables<C>,
    piece: &mut [u16],
    part: &mut [u16],
    queue: &mut [Entry<C>],
)
    requires root { root < (N.Network.meaning network.now).sites }
    requires room { ((N.Network.meaning network.now).sites ≤ first.old.sites) × (((N.Network.meaning network.now).sites ≤ second.old.sites) × ((N.Network.meaning network.now).sites ≤ length queue.old)) }
    requires marks { ((N.Network.meaning network.now).sites ≤ length piece.old) × ((N.Network.meaning network.now).sites ≤ length part.old) }
    ensures same { SameTables first.old first.new × SameTables second.old second.new }
    ensures first { (m : ℕ) × Left C.Cost.ops (N.Network.meaning network.now).sites (first_of C.Cost.ops (N.Network.meaning network.now) root) first.new.costs.now first.new.links.now first.new.turns.now first.new.order.now m }
    ensures second { (m : ℕ) × Left C.Cost.ops (N.Network.meaning network.now).sites (second_of C.Cost.ops (N.Network.meaning network.now) root) second.new.costs.now second.new.links.now second.new.turns.now second.new.order.now m }
{
    let count = first_run(network, root, first, queue);
    let left = left_in(network, root, first, count);
    let _struck = second_run(left, second, piece, part, queue);
}
