//! Walks back from a site to the root.
ghost use Rattle.std.specs.Prelude.{◌≡◌, ℕ, ◌<◌, ◌≤◌, List, length, take, drop, if◌then◌else◌, slice_index_or};
ghost use Rattle.marks.specs.Sets.{less};
ghost use Rattle.networks.specs.Meaning.{link_at};
ghost use Rattle.least_pairs.specs.Runs.{State};
ghost use Rattle.pairs.specs.Tables.{Marked};
ghost use Rattle.pairs.specs.Walking.{walked_over, Returning};

use crate::routes::turn_over;
use crate::tree::Tree;
use costs::Cost;
use marks::Marks;
use networks::network::Network;

/// Where a link starts.
pub fn start_of<N: Network>(network: &N, link: u16) -> u16
    requires { link < length (N.Network.meaning network.now).links }
    ensures { result ≡ (link_at (N.Network.meaning network.now) link).start }
{
    network.ends(link).unwrap().0
}

/// The link over which a walk leaves a site backwards: from a marked site its entry link, and the mark is wiped; else its tree link.
fn link_back<M: Marks>(tree: &[u16], entry: &[u16], marks: &mut M, site: u16) -> u16
    requires tree { site < length tree.now }
    requires entry { site < length entry.now }
    ensures link { result ≡ (if M.Marks.marked marks.old site then slice_index_or entry.now site 65535 else slice_index_or tree.now site 65535) }
    ensures set { (w : ℕ) → M.Marks.marked marks.new w ≡ less site (M.Marks.marked marks.old) w }
    ensures room { M.Marks.rooms marks.new ≡ M.Marks.rooms marks.old }
{
    if marks.is_marked(site) {
        marks.wipe(site);
        return entry[site as usize];
    }
    tree[site as usize]
}

/// Walks back from a target to the root: from a marked site over its entry link, wiping the mark, else over its tree link. Writes the links passed, from the root on, and answers how many they are.
pub(crate) fn walk_over<N: Network, C: Cost, M: Marks>(
    tree: &Tree<N, C>,
    entry: &[u16],
    marks: &mut M,
    target: u16,
    route: &mut [u16],
) -> u16
    requires entry { (N.Network.meaning tree.now.network.now).sites ≤ length entry.now }
    requires room { (N.Network.meaning tree.now.network.now).sites ≤ length route.old }
    requires home { (second : State C) × ((ms : List ℕ) × Returning C.Cost.ops (N.Network.meaning tree.now.network.now) tree.now.root entry.now (M.Marks.marked marks.old) target second ms) }
    ensures route { (second : State C) (ms : List ℕ) → Returning C.Cost.ops (N.Network.meaning tree.now.network.now) tree.now.root entry.now (M.Marks.marked marks.old) target second ms → take result route.new ≡ (walked_over C.Cost.ops (N.Network.meaning tree.now.network.now) tree.now.root second target ms).0 }
    ensures rest { drop result route.new ≡ drop result route.old }
    ensures left { (second : State C) (ms : List ℕ) → Returning C.Cost.ops (N.Network.meaning tree.now.network.now) tree.now.root entry.now (M.Marks.marked marks.old) target second ms → Marked (M.Marks.marked marks.new) (walked_over C.Cost.ops (N.Network.meaning tree.now.network.now) tree.now.root second target ms).1 }
    ensures marks { M.Marks.rooms marks.new ≡ M.Marks.rooms marks.old }
{
    let mut site = target;
    let mut count = 0;
    // Counted by hand: the count is answered, and a walk along sites has no list of its links to go by.
    while site != tree.root {
        let link = link_back(tree.links, entry, marks, site);
        route[count] = link;
        count += 1;
        site = start_of(tree.network, link);
    }
    turn_over(route, count);
    count as u16
}
