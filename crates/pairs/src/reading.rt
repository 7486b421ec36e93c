//! What both runs left, and the pair of a target that is read from it.
ghost use Rattle.std.specs.Prelude.{⊤, ◌≡◌, ℕ, ◌<◌, ◌≤◌, true, List, length, take, drop, ◌≢◌};
ghost use Rattle.least_pairs.specs.Plans.{labelled};
ghost use Rattle.pairs.specs.Tables.{Tells, Marked};
ghost use Rattle.pairs.specs.Reading.{second_of, target_marks, walked_back, second_walk, pair_of, Home};

use crate::tree::Tree;
use costs::Cost;
use marks::Marks;
use networks::network::Network;
use std::alloc::AllocError;

/// Wipes all marks, and then marks the target, its turn, the turn of that and so on, without the root.
// Here and below a call that changes marks says that their room stays: of marks of any kind no type can say it.
fn mark_turns<C: Cost, N: Network, M: Marks>(
    network: &N,
    turns: &[u16],
    marks: &mut M,
    root: u16,
    target: u16,
)
    requires root { root < (N.Network.meaning network.now).sites }
    requires room { (N.Network.meaning network.now).sites ≤ M.Marks.rooms marks.old }
    requires size { (N.Network.meaning network.now).sites ≤ length turns.now }
    requires turns { Tells (N.Network.meaning network.now).sites turns.now (λ l. l.turn) (second_of C.Cost.ops (N.Network.meaning network.now) root).labels }
    requires target { labelled ((second_of C.Cost.ops (N.Network.meaning network.now) root).labels target) ≡ true }
    ensures set { Marked (M.Marks.marked marks.new) (target_marks C.Cost.ops (N.Network.meaning network.now) root target) }
    ensures room { M.Marks.rooms marks.new ≡ M.Marks.rooms marks.old }
{
    marks.clear();
    let mut site = target;
    while site != root {
        marks.mark(site);
        site = turns[site as usize];
    }
}

/// What both runs left that a pair is read from: the tree links of the first run, and by site the entry link and the turn of the second.
// Tables side by side: they are those of `RunTables`, plain slices.
pub struct Tables<'a, N: Network, C: Cost> {
    pub tree: Tree<'a, N, C>,
    pub entry: &'a [u16],
    pub turns: &'a [u16],
    pub ghost entry_room: { (N.Network.meaning tree.network.now).sites ≤ length entry.now },
    pub ghost turns_room: { (N.Network.meaning tree.network.now).sites ≤ length turns.now },
    pub ghost entry_told: { Tells (N.Network.meaning tree.network.now).sites entry.now (λ l. l.link) (second_of C.Cost.ops (N.Network.meaning tree.network.now) tree.root).labels },
    pub ghost turns_told: { Tells (N.Network.meaning tree.network.now).sites turns.now (λ l. l.turn) (second_of C.Cost.ops (N.Network.meaning tree.network.now) tree.root).labels },
}

impl<'a, N: Network, C: Cost> Clone for Tables<'a, N, C> {
    ghost is_clone = { λ x y. y ≡ x };

    ghost is_infallible = { λ _. ⊤ };

    fn clone(&self) -> Result<Tables<'a, N, C>, AllocError> {
        Ok(*self)
    }
}

impl<'a, N: Network, C: Cost> Copy for Tables<'a, N, C> {}

impl<'a, N: Network, C: Cost> Tables<'a, N, C> {
    /// Reads the pair of a target with a second label: writes its two routes, each from the root on, and answers how many links each has.
    pub fn read_pair<M: Marks>(
        &self,
        marks: &mut M,
        target: u16,
        one: &mut [u16],
        two: &mut [u16],
    ) -> (u16, u16)
        requires other { target ≢ self.now.tree.root }
        requires room { (N.Network.meaning self.now.tree.network.now).sites ≤ M.Marks.rooms marks.old }
        requires routes { ((N.Network.meaning self.now.tree.network.now).sites ≤ length one.old) × ((N.Network.meaning self.now.tree.network.now).sites ≤ length two.old) }
        requires target { labelled ((second_of C.Cost.ops (N.Network.meaning self.now.tree.network.now) self.now.tree.root).labels target) ≡ true }
        ensures one { take result.0 one.new ≡ (pair_of C.Cost.ops (N.Network.meaning self.now.tree.network.now) self.now.tree.root target).0 }
        ensures two { take result.1 two.new ≡ (pair_of C.Cost.ops (N.Network.meaning self.now.tree.network.now) self.now.tree.root target).1 }
        ensures rest { (drop result.0 one.new ≡ drop result.0 one.old) × (drop result.1 two.new ≡ drop result.1 two.old) }
        ensures left { Marked (M.Marks.marked marks.new) (second_walk C.Cost.ops (N.Network.meaning self.now.tree.network.now) self.now.tree.root target).1 }
        ensures room { M.Marks.rooms marks.new ≡ M.Marks.rooms marks.old }
    {
        let tree = &self.tree;
        mark_turns::<C, N, M>(tree.network, self.turns, marks, tree.root, target);
        let first = tree.walk_back(self.entry, marks, target, one);
        let second = tree.walk_back(self.entry, marks, target, two);
        (first, second)
    }
}
