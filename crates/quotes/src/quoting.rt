//! Quotes: the least pair of routes from a root to a target that share no link.
ghost use Rattle.std.specs.Prelude.{◌≡◌, ℕ, ◌<◌, ◌≤◌, ◌&&◌, [], ◌∷◌, length};
ghost use Rattle.planner_tables.specs.Room.{all_fit, long_enough};
ghost use Rattle.quotes.specs.Quotes.{two_sites, Quoted};

use crate::quotation::Quote;
use crate::telling::work_out;
use costs::Cost;
use marks::Marks;
use networks::network::Network;
use planner_tables::{PlannerRefusal, Tables};

/// Whether root and target are two different sites.
fn are_two_sites(sites: u16, root: u16, target: u16) -> bool
    ensures { result ≡ two_sites sites root target }
{
    root < sites && target < sites && root != target
}

/// Whether both route tables have as many entries as there are sites.
fn routes_fit(sites: u16, one: &[u16], two: &[u16]) -> bool
    ensures { result ≡ all_fit sites (length one.now ∷ length two.now ∷ []) }
{
    let sites = sites as usize;
    sites <= one.len() && sites <= two.len()
}

/// The least pair of routes from a root to a target that share no link: writes both into the route tables, each from the root on. All tables need as many entries as there are sites.
// Two route tables of their own, here and in what this calls: a caller lends them apart.
pub fn quote<N: Network, C: Cost + Copy, M: Marks>(
    network: &N,
    root: u16,
    target: u16,
    tables: Tables<C, M>,
    one: &mut [u16],
    two: &mut [u16],
) -> Result<Quote<C>, PlannerRefusal>
    ensures { Quoted C.Cost.ops (N.Network.meaning network.now) root target (long_enough (N.Network.meaning network.now).sites M.Marks.rooms tables.entry && all_fit (N.Network.meaning network.now).sites (length one.old ∷ length two.old ∷ [])) result one.old two.old one.new two.new }
{
    let sites = network.sites();
    if !are_two_sites(sites, root, target) {
        return Err(PlannerRefusal::NotSites);
    }
    if !tables.are_long_enough(sites) || !routes_fit(sites, one, two) {
        return Err(PlannerRefusal::TableTooShort);
    }
    work_out(network, root, target, tables, one, two)
}
