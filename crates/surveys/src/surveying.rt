//! Surveys: what a root's routes to every site are like.
ghost use Rattle.std.specs.Prelude.{◌≡◌, ℕ, ◌<◌, ◌≤◌, true, ◌&&◌, length, Ok, nat_le};
ghost use Rattle.planner_tables.specs.Room.{long_enough};
ghost use Rattle.surveys.specs.Surveys.{Surveyed};

use crate::outcome::Outcome;
use crate::telling::tell_sites;
use costs::Cost;
use cutting::Labels;
use marks::Marks;
use networks::network::Network;
use planner_tables::{PlannerRefusal, Tables};
use queue::Entry;
use running::both_runs;
use runs::RunTables;

/// Both runs, and the outcome of every site by what they left.
// The tables of each run, the marks and the queue in parameters of their own: the proof follows no struct of them all whose parts are lent one by one.
fn tell_survey<N: Network, C: Cost + Copy>(
    network: &N,
    root: u16,
    first: &mut RunTables<C>,
    second: &mut RunTables<C>,
    piece: &mut [u16],
    part: &mut [u16],
    queue: &mut [Entry<C>],
    survey: &mut [Outcome<C>],
) -> u16
    requires root { root < (N.Network.meaning network.now).sites }
    requires runs { ((N.Network.meaning network.now).sites ≤ first.old.sites) × ((N.Network.meaning network.now).sites ≤ second.old.sites) }
    requires pieces { ((N.Network.meaning network.now).sites ≤ length piece.old) × ((N.Network.meaning network.now).sites ≤ length part.old) }
    requires queue { (N.Network.meaning network.now).sites ≤ length queue.old }
    requires survey { (N.Network.meaning network.now).sites ≤ length survey.old }
    ensures { Surveyed C.Cost.ops (N.Network.meaning network.now) root true (Ok result) survey.old survey.new }
{
    both_runs(network, root, first, second, piece, part, queue);
    let labels = Labels::new(network, root, first, second);
    tell_sites(&labels, survey)
}

/// Works a survey out from a root that is a site, in tables that are long enough.
// Taken apart here as for a quote: a struct of tables that is lent part by part, or handed on whole, has no proof.
fn work_out<N: Network, C: Cost + Copy, M: Marks>(
    network: &N,
    root: u16,
    tables: Tables<C, M>,
    survey: &mut [Outcome<C>],
) -> u16
    requires root { root < (N.Network.meaning network.now).sites }
    requires room { long_enough (N.Network.meaning network.now).sites M.Marks.rooms tables ≡ true }
    requires survey { (N.Network.meaning network.now).sites ≤ length survey.old }
    ensures { Surveyed C.Cost.ops (N.Network.meaning network.now) root true (Ok result) survey.old survey.new }
{
    let sites = network.sites();
    let Tables {
        distance,
        tree,
        parents,
        order,
        label,
        entry,
        turns,
        struck,
        piece,
        part,
        queue,
        ..
    } = tables;
    let mut first = RunTables {
        sites,
        costs: distance,
        links: tree,
        turns: parents,
        order,
    };
    let mut second = RunTables {
        sites,
        costs: label,
        links: entry,
        turns,
        order: struck,
    };
    // Named, so that both borrows end before the tables go.
    let told = tell_survey(
        network,
        root,
        &mut first,
        &mut second,
        piece,
        part,
        queue,
        survey,
    );
    told
}

/// The outcome of every site for a root: writes one entry for each site into the survey table, and answers how many they are. All tables need as many entries as there are sites.
pub fn survey<N: Network, C: Cost + Copy, M: Marks>(
    network: &N,
    root: u16,
    tables: Tables<C, M>,
    survey: &mut [Outcome<C>],
) -> Result<u16, PlannerRefusal>
    ensures { Surveyed C.Cost.ops (N.Network.meaning network.now) root (long_enough (N.Network.meaning network.now).sites M.Marks.rooms tables.entry && nat_le (N.Network.meaning network.now).sites (length survey.old)) result survey.old survey.new }
{
    let sites = network.sites();
    if root >= sites {
        return Err(PlannerRefusal::NotSites);
    }
    if !tables.are_long_enough(sites) || survey.len() < sites as usize {
        return Err(PlannerRefusal::TableTooShort);
    }
    Ok(work_out(network, root, tables, survey))
}
