//! The two runs of a planning over lent tables.
ghost use Rattle.std.specs.Prelude.{◌<◌, ◌≤◌, length};
ghost use Rattle.least_pairs.specs.Views.{view, without};
ghost use Rattle.least_pairs.specs.Plans.{first_run, second_run};
ghost use Rattle.runs.specs.Lent.{SameTables};
ghost use Rattle.stages.specs.First.{cut};
ghost use Rattle.running.specs.Left.{Left};

use costs::Cost;
use networks::network::Network;
use queue::Entry;
use runs::{RunTables, run};
use stages::{FirstRun, FirstStage, SecondStage};

/// The first run from a root with one link left out or none: fills the tables and tells how many sites were reached.
fn first_run_but<N: Network, C: Cost + Copy>(
    network: &N,
    left_out: Option<u16>,
    root: u16,
    tables: &mut RunTables<C>,
    queue: &mut [Entry<C>],
) -> u16
    requires root { root < (N.Network.meaning network.now).sites }
    requires room { ((N.Network.meaning network.now).sites ≤ tables.old.sites) × ((N.Network.meaning network.now).sites ≤ length queue.old) }
    ensures same { SameTables tables.old tables.new }
    ensures left { Left C.Cost.ops (N.Network.meaning network.now).sites (first_run C.Cost.ops (cut left_out (view C.Cost.ops (N.Network.meaning network.now))) root) tables.new.costs.now tables.new.links.now tables.new.turns.now tables.new.order.now result }
{
    let all = network.links();
    let mut stage = FirstStage::new(network, left_out);
    run(&mut stage, root, all, tables, queue)
}

/// The first run from a root: fills the tables and tells how many sites were reached.
// This call and the next are one text, `first_run_but`; each has a contract of its own.
pub(crate) fn first_run<N: Network, C: Cost + Copy>(
    network: &N,
    root: u16,
    tables: &mut RunTables<C>,
    queue: &mut [Entry<C>],
) -> u16
    requires root { root < (N.Network.meaning network.now).sites }
    requires room { ((N.Network.meaning network.now).sites ≤ tables.old.sites) × ((N.Network.meaning network.now).sites ≤ length queue.old) }
    ensures same { SameTables tables.old tables.new }
    ensures left { Left C.Cost.ops (N.Network.meaning network.now).sites (first_run C.Cost.ops (view C.Cost.ops (N.Network.meaning network.now)) root) tables.new.costs.now tables.new.links.now tables.new.turns.now tables.new.order.now result }
{
    first_run_but(network, None, root, tables, queue)
}

/// The first run from a root with one link left out.
pub fn first_run_without<N: Network, C: Cost + Copy>(
    network: &N,
    link: u16,
    root: u16,
    tables: &mut RunTables<C>,
    queue: &mut [Entry<C>],
) -> u16
    requires root { root < (N.Network.meaning network.now).sites }
    requires room { ((N.Network.meaning network.now).sites ≤ tables.old.sites) × ((N.Network.meaning network.now).sites ≤ length queue.old) }
    ensures same { SameTables tables.old tables.new }
    ensures left { Left C.Cost.ops (N.Network.meaning network.now).sites (first_run C.Cost.ops (without link (view C.Cost.ops (N.Network.meaning network.now))) root) tables.new.costs.now tables.new.links.now tables.new.turns.now tables.new.order.now result }
{
    first_run_but(network, Some(link), root, tables, queue)
}

/// The second run over what the first run left: fills the tables and tells how many sites were struck.
// The marks are two tables side by side, lent as plain slices.
pub(crate) fn second_run<N: Network, C: Cost + Copy>(
    first: FirstRun<N, C>,
    tables: &mut RunTables<C>,
    piece: &mut [u16],
    part: &mut [u16],
    queue: &mut [Entry<C>],
) -> u16
    requires room { ((N.Network.meaning first.network.now).sites ≤ tables.old.sites) × ((N.Network.meaning first.network.now).sites ≤ length queue.old) }
    requires marks { ((N.Network.meaning first.network.now).sites ≤ length piece.old) × ((N.Network.meaning first.network.now).sites ≤ length part.old) }
    ensures same { SameTables tables.old tables.new }
    ensures left { Left C.Cost.ops (N.Network.meaning first.entry.network.now).sites (second_run C.Cost.ops (view C.Cost.ops (N.Network.meaning first.entry.network.now)) first.entry.root (first_run C.Cost.ops (view C.Cost.ops (N.Network.meaning first.entry.network.now)) first.entry.root)) tables.new.costs.now tables.new.links.now tables.new.turns.now tables.new.order.now result }
{
    let links = first.network.links();
    let root = first.root;
    let mut stage = SecondStage::new(first, piece, part);
    run(&mut stage, root, links, tables, queue)
}
