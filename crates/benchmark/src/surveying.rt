//! A survey by length from site 0, in tables on the stack.
use crate::tallies::Tally;
use costs::{Cost, Length};
use marks::{Bytes, Marks};
use networks::network::Network;
use planner_tables::{PlannerRefusal, Tables};
use queue::Entry;
use surveys::{Outcome, survey};

/// The most sites that a network has.
const SITES: usize = 256;

// Surveys a network from site 0 into a table of outcomes, and answers how many sites it has. It is for any marks, since the prover's borrow check does not cover tables over marks that are known to be lent themselves.
fn fill<N: Network, M: Marks>(
    network: &N,
    marks: &mut M,
    outcomes: &mut [Outcome<Length>],
) -> Result<u16, PlannerRefusal> {
    let zero = Length::zero();
    let mut distance = [zero; SITES];
    let mut tree = [0u16; SITES];
    let mut parents = [0u16; SITES];
    let mut order = [0u16; SITES];
    let mut label = [zero; SITES];
    let mut entry = [0u16; SITES];
    let mut turns = [0u16; SITES];
    let mut struck = [0u16; SITES];
    let mut piece = [0u16; SITES];
    let mut part = [0u16; SITES];
    let mut queue = [Entry {
        cost: zero,
        site: 0,
    }; SITES];
    let tables = Tables {
        distance: &mut distance,
        tree: &mut tree,
        parents: &mut parents,
        order: &mut order,
        label: &mut label,
        entry: &mut entry,
        turns: &mut turns,
        struck: &mut struck,
        piece: &mut piece,
        part: &mut part,
        queue: &mut queue,
        marks,
    };
    survey(network, 0, tables, outcomes)
}

/// What a survey of a network from site 0 comes to.
pub fn tally<N: Network>(network: &N) -> Result<Tally, PlannerRefusal> {
    let mut outcomes = [Outcome::NoRoute; SITES];
    let mut bytes = [0u8; SITES];
    let mut marks = Bytes::new(&mut bytes);
    let sites = fill(network, &mut marks, &mut outcomes)?;
    let told = usize::from(sites).min(SITES);
    Ok(Tally::of(&outcomes[0..told]))
}
