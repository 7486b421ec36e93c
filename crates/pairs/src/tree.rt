//! The tree links of the first run, and the walks over them.
ghost use Rattle.std.specs.Prelude.{⊤, ◌≡◌, ℕ, ◌<◌, ◌≤◌, true, List, length, take, drop};
ghost use Rattle.least_pairs.specs.Plans.{labelled};
ghost use Rattle.pairs.specs.Tables.{Tells, Marked};
ghost use Rattle.pairs.specs.Reading.{first_of, second_of, walked_back, tree_route_to, Home};

use crate::walking::walk_over;
use costs::Cost;
use marks::{Bytes, Marks};
use networks::network::Network;
use std::alloc::AllocError;
use std::marker::PhantomData;

/// A network with the tree links, by site, that the first run from a root left there under a kind of costs.
pub struct Tree<'a, N: Network, C: Cost> {
    pub network: &'a N,
    pub root: u16,
    pub links: &'a [u16],
    pub costs: PhantomData<C>,
    pub ghost root_stands: { root < (N.Network.meaning network.now).sites },
    pub ghost room: { (N.Network.meaning network.now).sites ≤ length links.now },
    pub ghost told: { Tells (N.Network.meaning network.now).sites links.now (λ l. l.link) (first_of C.Cost.ops (N.Network.meaning network.now) root).labels },
}

impl<'a, N: Network, C: Cost> Clone for Tree<'a, N, C> {
    ghost is_clone = { λ x y. y ≡ x };

    ghost is_infallible = { λ _. ⊤ };

    fn clone(&self) -> Result<Tree<'a, N, C>, AllocError> {
        Ok(*self)
    }
}

impl<'a, N: Network, C: Cost> Copy for Tree<'a, N, C> {}

impl<'a, N: Network, C: Cost> Tree<'a, N, C> {
    /// Walks back from a target to the root: from a marked site over its entry link, wiping the mark, else over its tree link. Writes the links passed, from the root on, and answers how many they are.
    pub(crate) fn walk_back<M: Marks>(
        &self,
        entry: &[u16],
        marks: &mut M,
        target: u16,
        route: &mut [u16],
    ) -> u16
        requires sizes { ((N.Network.meaning self.now.network.now).sites ≤ length entry.now) × ((N.Network.meaning self.now.network.now).sites ≤ length route.old) }
        requires entry { Tells (N.Network.meaning self.now.network.now).sites entry.now (λ l. l.link) (second_of C.Cost.ops (N.Network.meaning self.now.network.now) self.now.root).labels }
        requires home { (ms : List ℕ) × (Marked (M.Marks.marked marks.old) ms × Home C.Cost.ops (N.Network.meaning self.now.network.now) self.now.root target ms) }
        ensures route { (ms : List ℕ) → Marked (M.Marks.marked marks.old) ms → take result route.new ≡ (walked_back C.Cost.ops (N.Network.meaning self.now.network.now) self.now.root target ms).0 }
        ensures rest { drop result route.new ≡ drop result route.old }
        ensures left { (ms : List ℕ) → Marked (M.Marks.marked marks.old) ms → Marked (M.Marks.marked marks.new) (walked_back C.Cost.ops (N.Network.meaning self.now.network.now) self.now.root target ms).1 }
        ensures room { M.Marks.rooms marks.new ≡ M.Marks.rooms marks.old }
    {
        walk_over(self, entry, marks, target, route)
    }

    /// Writes the tree links from the root to a reached site, in the order in which they lead there, and answers how many they are.
    pub fn tree_route(&self, target: u16, route: &mut [u16]) -> u16
        requires room { (N.Network.meaning self.now.network.now).sites ≤ length route.old }
        requires target { labelled ((first_of C.Cost.ops (N.Network.meaning self.now.network.now) self.now.root).labels target) ≡ true }
        ensures route { take result route.new ≡ tree_route_to C.Cost.ops (N.Network.meaning self.now.network.now) self.now.root target }
        ensures rest { drop result route.new ≡ drop result route.old }
    {
        // It is the walk back on which no site is marked, so that no entry link is looked at.
        let mut unmarked = [0; 0];
        let mut marks = Bytes::new(&mut unmarked);
        walk_over(self, self.links, &mut marks, target, route)
    }
}
