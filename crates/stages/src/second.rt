//! The second run: a struck site considers the links that leave it and those that join the parts of its piece.
ghost use Rattle.std.specs.Prelude.{◌≡◌, ℕ, ◌<◌, ◌≤◌, [], reverse, length, slice_index, slice_index_or};
ghost use Rattle.least_pairs.specs.Views.{view};
ghost use Rattle.least_pairs.specs.Plans.{first_run, second_job};
ghost use Rattle.stages.specs.Marks.{renewed};
ghost use Rattle.stages.specs.Second.{FirstLeft, Ready, tree_linked, admitted, reduced_worked};
ghost use Rattle.stages.specs.Once.{first_left_once};

use crate::pieces::{are_together, begin_marks, keep_marks, renew};
use crate::usable::{cost_of_link, ends_of, is_usable};
use costs::Cost;
use networks::network::Network;
use runs::Stage;

/// A network with what the first run from a root left: distances, tree links and parents by site, and the sites reached in the order they were settled.
// Tables side by side: they are those of `RunTables`, plain slices.
#[derive(Drop)]
pub struct FirstRun<'a, N: Network, C: Cost> {
    pub network: &'a N,
    pub root: u16,
    pub distance: &'a [C],
    pub tree: &'a [u16],
    pub parents: &'a [u16],
    pub order: &'a [u16],
    pub ghost left: { FirstLeft C.Cost.ops (view C.Cost.ops (N.Network.meaning network.now)) root distance.now tree.now parents.now order.now } by { first_left_once C.code },
}

/// The second stage: for each site the mark of its piece before the last strike, and of its part since.
#[derive(Drop)]
pub struct SecondStage<'a, 't, N: Network, C: Cost> {
    first: FirstRun<'a, N, C>,
    piece: &'t mut [u16],
    part: &'t mut [u16],
}

/// Whether a link is the tree link of its end.
fn is_tree_link(tree: &[u16], root: u16, end: u16, link: u16) -> bool
    requires { end < length tree.now }
    ensures { result ≡ tree_linked tree.now root end link }
{
    tree[end as usize] == link && end != root
}

impl<'a, N: Network, C: Cost + Copy> FirstRun<'a, N, C> {
    /// The reduced cost of a link: its cost plus its start's distance minus its end's.
    fn reduced_cost(&self, link: u16, start: u16, end: u16) -> C
        requires link { link < length (N.Network.meaning self.now.network.now).links }
        requires ends { (start < length self.now.distance.now) × (end < length self.now.distance.now) }
        ensures { result ≡ reduced_worked C.Cost.ops ((view C.Cost.ops (N.Network.meaning self.now.network.now)).cost link) (slice_index_or self.now.distance.now start C.Cost.ops.zero) (slice_index_or self.now.distance.now end C.Cost.ops.zero) }
    {
        let cost = cost_of_link::<N, C>(self.network, link);
        let at_start = self.distance[start as usize];
        let at_end = self.distance[end as usize];
        cost.sum(at_start).sum(at_end.negation())
    }

    /// Strikes a site: the marks of the parts are kept as those of the pieces, and those of the parts are made new.
    fn strike(&self, piece: &mut [u16], part: &mut [u16], site: u16)
        requires piece { (N.Network.meaning self.now.network.now).sites ≤ length piece.old }
        requires part { (N.Network.meaning self.now.network.now).sites ≤ length part.old }
        ensures piece { (w : ℕ) → w < (N.Network.meaning self.now.network.now).sites → slice_index piece.new w ≡ slice_index part.old w }
        ensures part { part.new ≡ renewed self.now.parents.now self.now.root site (reverse self.now.order.now) part.old }
    {
        keep_marks(piece, part, self.network.sites());
        renew(part, self.order, self.parents, self.root, site);
    }
}

impl<'a, 't, N: Network, C: Cost + Copy> SecondStage<'a, 't, N, C> {
    /// The stage before any site is struck.
    pub fn new(first: FirstRun<'a, N, C>, piece: &'t mut [u16], part: &'t mut [u16]) -> Self
        requires piece { (N.Network.meaning first.network.now).sites ≤ length piece.old }
        requires part { (N.Network.meaning first.network.now).sites ≤ length part.old }
        ensures first { result.first ≡ first.entry }
        ensures ready { Ready C.Cost.ops (view C.Cost.ops (N.Network.meaning result.first.network.now)) result.first.root result.first.distance.now result.first.tree.now result.first.parents.now result.first.order.now result.piece.now result.part.now [] }
    {
        let sites = first.network.sites();
        begin_marks(part, first.tree, first.root, sites);
        SecondStage { first, piece, part }
    }

    /// Whether a usable link is one that the site struck last considers.
    fn admits(&self, site: u16, link: u16, start: u16, end: u16) -> bool
        requires tree { end < length self.now.first.tree.now }
        requires piece { (site < length self.now.piece.now) × ((start < length self.now.piece.now) × (end < length self.now.piece.now)) }
        requires part { (start < length self.now.part.now) × (end < length self.now.part.now) }
        ensures { result ≡ admitted self.now.first.tree.now self.now.piece.now self.now.part.now self.now.first.root site start end link }
    {
        let tree = self.first.tree;
        let root = self.first.root;
        if is_tree_link(tree, root, end, link) {
            return false;
        }
        if !are_together(self.piece, site, start) || !are_together(self.piece, site, end) {
            return false;
        }
        if end == site {
            return false;
        }
        start == site || !are_together(self.part, start, end)
    }
}

impl<'a, 't, N: Network, C: Cost + Copy> Stage<C> for SecondStage<'a, 't, N, C> {
    ghost job = { λ s. second_job C.Cost.ops (view C.Cost.ops (N.Network.meaning s.first.network.now)) s.first.root (first_run C.Cost.ops (view C.Cost.ops (N.Network.meaning s.first.network.now)) s.first.root) };

    ghost ready = { λ s S. Ready C.Cost.ops (view C.Cost.ops (N.Network.meaning s.first.network.now)) s.first.root s.first.distance.now s.first.tree.now s.first.parents.now s.first.order.now s.piece.now s.part.now S };

    fn strike(&mut self, site: u16) {
        self.first.strike(self.piece, self.part, site);
    }

    fn offer(&self, site: u16, link: u16) -> Option<(u16, C)> {
        let network = self.first.network;
        if !is_usable(network, link) {
            return None;
        }
        let (start, end) = ends_of(network, link);
        if !self.admits(site, link, start, end) {
            return None;
        }
        Some((end, self.first.reduced_cost(link, start, end)))
    }
}
