//! The search for the link that all routes to a target use and meet first.
ghost use Rattle.std.specs.Prelude.{◌≡◌, ℕ, ◌<◌, ◌≤◌, true, length};
ghost use Rattle.least_pairs.specs.Views.{view, without};
ghost use Rattle.least_pairs.specs.Plans.{first_run, first_cut, labelled};
ghost use Rattle.std.specs.Option.{unwrap_or};
ghost use Rattle.cutting.specs.Cuts.{found_cut};
ghost use Rattle.pairs.specs.Reading.{first_of, tree_route_to};
ghost use Rattle.runs.specs.Lent.{SameTables};

use costs::Cost;
use networks::network::Network;
use pairs::Tree;
use queue::Entry;
use running::first_run_without;
use runs::{NONE, RunTables};

/// Whether a target is reached with a link left out. The tables are worked in.
fn is_reached_without<N: Network, C: Cost + Copy>(
    tree: &Tree<N, C>,
    link: u16,
    target: u16,
    tables: &mut RunTables<C>,
    queue: &mut [Entry<C>],
) -> bool
    requires target { target < (N.Network.meaning tree.now.network.now).sites }
    requires room { ((N.Network.meaning tree.now.network.now).sites ≤ tables.old.sites) × ((N.Network.meaning tree.now.network.now).sites ≤ length queue.old) }
    ensures reached { result ≡ labelled ((first_run C.Cost.ops (without link (view C.Cost.ops (N.Network.meaning tree.now.network.now))) tree.now.root).labels target) }
    ensures same { SameTables tables.old tables.new }
{
    let _count = first_run_without(tree.network, link, tree.root, tables, queue);
    // A number for none: the tables are plain u16.
    tables.links[target as usize] != NONE
}

/// The first link of the tree route to a reached target without which it is out of reach, if there is one. The other tables are worked in.
pub fn cutting_link<N: Network, C: Cost + Copy>(
    tree: &Tree<N, C>,
    target: u16,
    route: &mut [u16],
    tables: &mut RunTables<C>,
    queue: &mut [Entry<C>],
) -> Option<u16>
    requires target { target < (N.Network.meaning tree.now.network.now).sites }
    requires route { (N.Network.meaning tree.now.network.now).sites ≤ length route.old }
    requires room { ((N.Network.meaning tree.now.network.now).sites ≤ tables.old.sites) × ((N.Network.meaning tree.now.network.now).sites ≤ length queue.old) }
    requires reached { labelled ((first_of C.Cost.ops (N.Network.meaning tree.now.network.now) tree.now.root).labels target) ≡ true }
    ensures cut { result ≡ found_cut C.Cost.ops (view C.Cost.ops (N.Network.meaning tree.now.network.now)) tree.now.root target (tree_route_to C.Cost.ops (N.Network.meaning tree.now.network.now) tree.now.root target) }
    ensures link { unwrap_or result 0 ≡ first_cut C.Cost.ops (view C.Cost.ops (N.Network.meaning tree.now.network.now)) tree.now.root target (tree_route_to C.Cost.ops (N.Network.meaning tree.now.network.now) tree.now.root target) }
{
    let count = tree.tree_route(target, route);
    let mut links = &route[0..count as usize];
    'search: loop {
        let Some((link, rest)) = links.split_first() else {
            break 'search None;
        };
        if !is_reached_without(tree, *link, target, tables, queue) {
            break 'search Some(*link);
        }
        links = rest;
    }
}
