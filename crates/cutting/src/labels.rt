//! What both runs left, as the answers are read from it.
ghost use Rattle.std.specs.Prelude.{◌≡◌, ◌<◌, ◌≤◌, length};
ghost use Rattle.std.specs.Coded.{Coded-set, Π_prop, →_prop};
ghost use Rattle.runs.specs.Tables.{Holds};
ghost use Rattle.pairs.specs.Reading.{first_of, second_of};
ghost use Rattle.runs.specs.Codes.{some_label_code};

use costs::Cost;
use networks::network::Network;
use pairs::{Tables, Tree};
use runs::RunTables;
use std::marker::PhantomData;

/// The labels that both runs from a root left over a network: by site the distance, the tree link and the parent of the first run, and the label, the entry link and the turn of the second.
// Tables side by side: they are those of `RunTables`, plain slices.
#[derive(Drop)]
pub struct Labels<'a, N: Network, C: Cost> {
    pub found: Tables<'a, N, C>,
    pub distance: &'a [C],
    pub parents: &'a [u16],
    pub label: &'a [C],
    pub ghost distance_room: { (N.Network.meaning found.tree.network.now).sites ≤ length distance.now },
    pub ghost label_room: { (N.Network.meaning found.tree.network.now).sites ≤ length label.now },
    pub ghost first: { Holds C.Cost.ops (N.Network.meaning found.tree.network.now).sites distance.now found.tree.links.now parents.now (first_of C.Cost.ops (N.Network.meaning found.tree.network.now) found.tree.root).labels } by { Π_prop (λ w. →_prop (Coded-set (some_label_code C.code) _ _)) },
    pub ghost second: { Holds C.Cost.ops (N.Network.meaning found.tree.network.now).sites label.now found.entry.now found.turns.now (second_of C.Cost.ops (N.Network.meaning found.tree.network.now) found.tree.root).labels } by { Π_prop (λ w. →_prop (Coded-set (some_label_code C.code) _ _)) },
}

impl<'a, N: Network, C: Cost> Labels<'a, N, C> {
    /// The labels that both runs left in their tables.
    pub fn new(network: &'a N, root: u16, first: &'a RunTables<C>, second: &'a RunTables<C>) -> Self
        requires root { root < (N.Network.meaning network.now).sites }
        requires room { ((N.Network.meaning network.now).sites ≤ first.now.sites) × ((N.Network.meaning network.now).sites ≤ second.now.sites) }
        requires first { Holds C.Cost.ops (N.Network.meaning network.now).sites first.now.costs.now first.now.links.now first.now.turns.now (first_of C.Cost.ops (N.Network.meaning network.now) root).labels }
        requires second { Holds C.Cost.ops (N.Network.meaning network.now).sites second.now.costs.now second.now.links.now second.now.turns.now (second_of C.Cost.ops (N.Network.meaning network.now) root).labels }
        ensures network { result.found.tree.network.now ≡ network.now }
        ensures root { result.found.tree.root ≡ root }
        ensures first { (result.distance.now ≡ first.now.costs.now) × (result.found.tree.links.now ≡ first.now.links.now) × (result.parents.now ≡ first.now.turns.now) }
        ensures second { (result.label.now ≡ second.now.costs.now) × (result.found.entry.now ≡ second.now.links.now) × (result.found.turns.now ≡ second.now.turns.now) }
    {
        let tree = Tree {
            network,
            root,
            links: first.links,
            costs: PhantomData,
        };
        let found = Tables {
            tree,
            entry: second.links,
            turns: second.turns,
        };
        Labels {
            found,
            distance: first.costs,
            parents: first.turns,
            label: second.costs,
        }
    }
}
