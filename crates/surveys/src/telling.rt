//! The outcome of each site by what both runs left in their tables.
ghost use Rattle.std.specs.Prelude.{◌≡◌, ℕ, ◌<◌, ◌≤◌, length, drop, slice_index_or};
ghost use Rattle.surveys.specs.declared.outcome.Outcome.TheVariants.{Root};
ghost use Rattle.surveys.specs.Surveys.{OutcomeIs};

use crate::outcome::Outcome;
use costs::Cost;
use cutting::{Labels, last_piece_link};
use networks::network::Network;
use runs::NONE;

/// The outcome of one site.
fn tell_site<N: Network, C: Cost + Copy>(labels: &Labels<N, C>, site: u16) -> Outcome<C>
    requires { site < (N.Network.meaning labels.now.found.tree.network.now).sites }
    ensures { OutcomeIs C.Cost.ops (N.Network.meaning labels.now.found.tree.network.now) labels.now.found.tree.root site result }
{
    let tree = &labels.found.tree;
    let entry = labels.found.entry;
    let at = site as usize;
    if site == tree.root {
        return Outcome::Root;
    }
    // A number for none: the tables are plain u16.
    if tree.links[at] == NONE {
        return Outcome::NoRoute;
    }
    if entry[at] == NONE {
        let link = last_piece_link(tree, entry, site);
        return Outcome::OneLink { link };
    }
    let far = labels.distance[at];
    let extra = labels.label[at];
    Outcome::Total(extra.sum(far.sum(far)))
}

/// Writes the outcome of every site into the survey table, and answers how many sites there are.
pub fn tell_sites<N: Network, C: Cost + Copy>(
    labels: &Labels<N, C>,
    survey: &mut [Outcome<C>],
) -> u16
    requires { (N.Network.meaning labels.now.found.tree.network.now).sites ≤ length survey.old }
    ensures count { result ≡ (N.Network.meaning labels.now.found.tree.network.now).sites }
    ensures outcomes { (w : ℕ) → w < (N.Network.meaning labels.now.found.tree.network.now).sites → OutcomeIs C.Cost.ops (N.Network.meaning labels.now.found.tree.network.now) labels.now.found.tree.root w (slice_index_or survey.new w Root) }
    ensures rest { drop (N.Network.meaning labels.now.found.tree.network.now).sites survey.new ≡ drop (N.Network.meaning labels.now.found.tree.network.now).sites survey.old }
{
    let sites = labels.found.tree.network.sites();
    let outcomes = &mut survey[..sites as usize];
    for (site, outcome) in outcomes.iter_mut().enumerate() {
        *outcome = tell_site(labels, site as u16);
    }
    sites
}
