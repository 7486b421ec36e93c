//! The answer of a quote by what both runs left in their tables.
ghost use Rattle.std.specs.Prelude.{◌≡◌, ℕ, ◌<◌, ◌≤◌, true, List, length, take, drop, ◌≢◌};
ghost use Rattle.least_pairs.specs.Plans.{labelled, pair};
ghost use Rattle.pairs.specs.Reading.{first_of, second_of};
ghost use Rattle.planner_tables.specs.Room.{long_enough};
ghost use Rattle.quotes.specs.Quotes.{two_sites, Answered, Quoted};

use crate::quotation::Quote;
use costs::Cost;
use cutting::{Labels, cutting_link};
use marks::Marks;
use networks::network::Network;
use pairs::Tree;
use planner_tables::{PlannerRefusal, Tables};
use queue::Entry;
use running::both_runs;
use runs::{NONE, RunTables};
use std::marker::PhantomData;

/// The quote of a target with a label of both runs: writes both routes.
fn quote_pair<N: Network, C: Cost + Copy, M: Marks>(
    labels: &Labels<N, C>,
    marks: &mut M,
    target: u16,
    one: &mut [u16],
    two: &mut [u16],
) -> Quote<C>
    requires target { (target < (N.Network.meaning labels.now.found.tree.network.now).sites) × (target ≢ labels.now.found.tree.root) }
    requires room { (N.Network.meaning labels.now.found.tree.network.now).sites ≤ M.Marks.rooms marks.old }
    requires routes { ((N.Network.meaning labels.now.found.tree.network.now).sites ≤ length one.old) × ((N.Network.meaning labels.now.found.tree.network.now).sites ≤ length two.old) }
    requires first { labelled ((first_of C.Cost.ops (N.Network.meaning labels.now.found.tree.network.now) labels.now.found.tree.root).labels target) ≡ true }
    requires second { labelled ((second_of C.Cost.ops (N.Network.meaning labels.now.found.tree.network.now) labels.now.found.tree.root).labels target) ≡ true }
    ensures answer { Answered C.Cost.ops (N.Network.meaning labels.now.found.tree.network.now) labels.now.found.tree.root target (pair (take result.one one.new) (take result.two two.new) result.total) }
    ensures rest { (drop result.one one.new ≡ drop result.one one.old) × (drop result.two two.new ≡ drop result.two two.old) }
{
    let at = target as usize;
    let far = labels.distance[at];
    let extra = labels.label[at];
    let total = extra.sum(far.sum(far));
    let counts = labels.found.read_pair(marks, target, one, two);
    Quote {
        one: counts.0,
        two: counts.1,
        total,
    }
}

/// Both runs, and the answer by what they left. The tables of the second are worked in where a cutting link is searched for.
// The tables of each run, the marks, the queue and the routes in parameters of their own: the proof follows no struct of them all whose parts are lent one by one.
fn tell_quote<N: Network, C: Cost + Copy, M: Marks>(
    network: &N,
    root: u16,
    target: u16,
    first: &mut RunTables<C>,
    second: &mut RunTables<C>,
    piece: &mut [u16],
    part: &mut [u16],
    queue: &mut [Entry<C>],
    marks: &mut M,
    one: &mut [u16],
    two: &mut [u16],
) -> Result<Quote<C>, PlannerRefusal>
    requires sites { two_sites (N.Network.meaning network.now).sites root target ≡ true }
    requires runs { ((N.Network.meaning network.now).sites ≤ first.old.sites) × ((N.Network.meaning network.now).sites ≤ second.old.sites) }
    requires pieces { ((N.Network.meaning network.now).sites ≤ length piece.old) × ((N.Network.meaning network.now).sites ≤ length part.old) }
    requires queue { (N.Network.meaning network.now).sites ≤ length queue.old }
    requires marks { (N.Network.meaning network.now).sites ≤ M.Marks.rooms marks.old }
    requires routes { ((N.Network.meaning network.now).sites ≤ length one.old) × ((N.Network.meaning network.now).sites ≤ length two.old) }
    ensures { Quoted C.Cost.ops (N.Network.meaning network.now) root target true result one.old two.old one.new two.new }
{
    both_runs(network, root, first, second, piece, part, queue);
    let at = target as usize;
    // A number for none: the tables are plain u16.
    if first.links[at] == NONE {
        return Err(PlannerRefusal::NoRoute);
    }
    if second.links[at] == NONE {
        let tree = Tree {
            network,
            root,
            links: first.links,
            costs: PhantomData,
        };
        let cut = cutting_link(&tree, target, piece, second, queue);
        return Err(PlannerRefusal::OneLink { link: cut.unwrap() });
    }
    let labels = Labels::new(network, root, first, second);
    Ok(quote_pair(&labels, marks, target, one, two))
}

/// Works a quote out for two different sites, in tables that are long enough.
pub fn work_out<N: Network, C: Cost + Copy, M: Marks>(
    network: &N,
    root: u16,
    target: u16,
    tables: Tables<C, M>,
    one: &mut [u16],
    two: &mut [u16],
) -> Result<Quote<C>, PlannerRefusal>
    requires sites { two_sites (N.Network.meaning network.now).sites root target ≡ true }
    requires room { long_enough (N.Network.meaning network.now).sites M.Marks.rooms tables ≡ true }
    requires routes { ((N.Network.meaning network.now).sites ≤ length one.old) × ((N.Network.meaning network.now).sites ≤ length two.old) }
    ensures { Quoted C.Cost.ops (N.Network.meaning network.now) root target true result one.old two.old one.new two.new }
{
    let sites = network.sites();
    let Tables {
        distance,
        tree,
        parents,
        order,
        label,
        entry,
        turns,
        struck,
        piece,
        part,
        queue,
        marks,
    } = tables;
    let mut first = RunTables {
        sites,
        costs: distance,
        links: tree,
        turns: parents,
        order,
    };
    let mut second = RunTables {
        sites,
        costs: label,
        links: entry,
        turns,
        order: struck,
    };
    // Named, so that both borrows end before the tables go.
    let answer = tell_quote(
        network,
        root,
        target,
        &mut first,
        &mut second,
        piece,
        part,
        queue,
        marks,
        one,
        two,
    );
    answer
}
