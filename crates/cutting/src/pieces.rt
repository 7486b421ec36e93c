//! The link that cuts a site off, found from what the second run left of the tree.
ghost use Rattle.std.specs.Prelude.{◌≡◌, ℕ, ◌<◌, ◌≤◌, true, false, List, length};
ghost use Rattle.least_pairs.specs.Views.{view};
ghost use Rattle.least_pairs.specs.Plans.{first_cut, labelled};
ghost use Rattle.runs.specs.Tables.{Holds};
ghost use Rattle.pairs.specs.Reading.{first_of, second_of, tree_route_to};

use costs::Cost;
use networks::network::Network;
use pairs::{Tree, start_of};
use runs::NONE;

/// The link that cuts off a reached site without a label, and with it its whole last piece: the tree link of the piece's top, which is the first site on the way up whose tree link starts at a site with a label.
pub fn last_piece_link<N: Network, C: Cost>(tree: &Tree<N, C>, entry: &[u16], site: u16) -> u16
    requires room { (N.Network.meaning tree.now.network.now).sites ≤ length entry.now }
    requires entry { (label : List C) × (turns : List ℕ) × Holds C.Cost.ops (N.Network.meaning tree.now.network.now).sites label entry.now turns (second_of C.Cost.ops (N.Network.meaning tree.now.network.now) tree.now.root).labels }
    requires site { (labelled ((first_of C.Cost.ops (N.Network.meaning tree.now.network.now) tree.now.root).labels site) ≡ true) × (labelled ((second_of C.Cost.ops (N.Network.meaning tree.now.network.now) tree.now.root).labels site) ≡ false) }
    ensures { result ≡ first_cut C.Cost.ops (view C.Cost.ops (N.Network.meaning tree.now.network.now)) tree.now.root site (tree_route_to C.Cost.ops (N.Network.meaning tree.now.network.now) tree.now.root site) }
{
    let mut top = site;
    'climb: loop {
        let link = tree.links[top as usize];
        let above = start_of(tree.network, link);
        // A number for none: the tables are plain u16.
        if entry[above as usize] != NONE {
            break 'climb link;
        }
        top = above;
    }
}
