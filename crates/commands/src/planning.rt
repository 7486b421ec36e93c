//! Quotes, surveys and holds on a board by either cost kind, worked out in tables on the stack.
use crate::answers::{Pair, Route, SITES, Survey};
use crate::finding::Finding;
use crate::total::{CostKind, Total};
use boards::{Board, HoldRefusal};
use costs::{Cost, Length, PolesFirst};
use desks::Desk;
use marks::{Bytes, Marks};
use networks::network::Network;
use planner_tables::{PlannerRefusal, Tables};
use queue::Entry;
use surveys::Outcome;

// Lends a call the working tables of a planning by a cost kind. A macro, since a struct of tables that are lent part by part gets no proof, and nor does a function with an array over a cost kind that is its parameter.
macro_rules! in_tables {
    ($cost:ty, $marks:expr, $tables:ident => $call:expr) => {{
        let zero = <$cost>::zero();
        let mut distance = [zero; SITES];
        let mut tree = [0u16; SITES];
        let mut parents = [0u16; SITES];
        let mut order = [0u16; SITES];
        let mut label = [zero; SITES];
        let mut entry = [0u16; SITES];
        let mut turns = [0u16; SITES];
        let mut struck = [0u16; SITES];
        let mut piece = [0u16; SITES];
        let mut part = [0u16; SITES];
        let mut queue = [Entry {
            cost: zero,
            site: 0,
        }; SITES];
        let $tables = Tables {
            distance: &mut distance,
            tree: &mut tree,
            parents: &mut parents,
            order: &mut order,
            label: &mut label,
            entry: &mut entry,
            turns: &mut turns,
            struck: &mut struck,
            piece: &mut piece,
            part: &mut part,
            queue: &mut queue,
            marks: $marks,
        };
        $call
    }};
}

// The least pair by any cost kind, in lent tables.
fn pair_in<N: Network, C: Cost + Copy + Into<Total>, M: Marks>(
    board: &Board<N>,
    root: u16,
    target: u16,
    tables: Tables<C, M>,
) -> Result<Pair, PlannerRefusal> {
    let mut one = [0u16; SITES];
    let mut two = [0u16; SITES];
    let quote = board.quote(root, target, tables, &mut one, &mut two)?;
    Ok(Pair {
        total: quote.total.into(),
        one: Route {
            links: one,
            count: quote.one,
        },
        two: Route {
            links: two,
            count: quote.two,
        },
    })
}

// What is found for each site by any cost kind, in lent tables.
fn survey_in<N: Network, C: Cost + Copy + Into<Total>, M: Marks>(
    board: &Board<N>,
    root: u16,
    tables: Tables<C, M>,
    outcomes: &mut [Outcome<C>],
) -> Result<Survey, PlannerRefusal> {
    let sites = board.survey(root, tables, outcomes)?;
    let mut findings = [None; SITES];
    for (finding, outcome) in findings.iter_mut().zip(outcomes.iter()) {
        *finding = Finding::of(*outcome);
    }
    Ok(Survey { findings, sites })
}

// Holds a circuit by any cost kind, in lent tables.
fn hold_in<N: Network, C: Cost + Copy, M: Marks>(
    desk: &mut Desk<N>,
    circuit: u8,
    root: u16,
    target: u16,
    tables: Tables<C, M>,
) -> Result<(), HoldRefusal> {
    let mut one = [0u16; SITES];
    let mut two = [0u16; SITES];
    desk.hold(circuit, root, target, tables, &mut one, &mut two)?;
    Ok(())
}

// The least pair by one of both cost kinds. It is for any marks, since the prover's borrow check does not cover tables over marks that are known to be lent themselves; so are the survey and the hold below.
fn pair_by<N: Network, M: Marks>(
    board: &Board<N>,
    root: u16,
    target: u16,
    kind: CostKind,
    marks: &mut M,
) -> Result<Pair, PlannerRefusal> {
    match kind {
        CostKind::Length => {
            in_tables!(Length, marks, tables => pair_in(board, root, target, tables))
        }
        CostKind::PolesFirst => {
            in_tables!(PolesFirst, marks, tables => pair_in(board, root, target, tables))
        }
    }
}

// What is found for each site by one of both cost kinds.
fn survey_by<N: Network, M: Marks>(
    board: &Board<N>,
    root: u16,
    kind: CostKind,
    marks: &mut M,
) -> Result<Survey, PlannerRefusal> {
    match kind {
        CostKind::Length => {
            let mut outcomes = [Outcome::NoRoute; SITES];
            in_tables!(Length, marks, tables => survey_in(board, root, tables, &mut outcomes))
        }
        CostKind::PolesFirst => {
            let mut outcomes = [Outcome::NoRoute; SITES];
            in_tables!(PolesFirst, marks, tables => survey_in(board, root, tables, &mut outcomes))
        }
    }
}

// Holds a circuit by one of both cost kinds.
fn hold_by<N: Network, M: Marks>(
    desk: &mut Desk<N>,
    circuit: u8,
    root: u16,
    target: u16,
    kind: CostKind,
    marks: &mut M,
) -> Result<(), HoldRefusal> {
    match kind {
        CostKind::Length => {
            in_tables!(Length, marks, tables => hold_in(desk, circuit, root, target, tables))
        }
        CostKind::PolesFirst => {
            in_tables!(PolesFirst, marks, tables => hold_in(desk, circuit, root, target, tables))
        }
    }
}

/// The least pair of routes from a root to a target that share no link.
pub fn least_pair<N: Network>(
    board: &Board<N>,
    root: u16,
    target: u16,
    kind: CostKind,
) -> Result<Pair, PlannerRefusal> {
    let mut bytes = [0u8; SITES];
    pair_by(board, root, target, kind, &mut Bytes::new(&mut bytes))
}

/// What a root's routes to all sites are like.
pub fn survey_all<N: Network>(
    board: &Board<N>,
    root: u16,
    kind: CostKind,
) -> Result<Survey, PlannerRefusal> {
    let mut bytes = [0u8; SITES];
    survey_by(board, root, kind, &mut Bytes::new(&mut bytes))
}

/// Holds a circuit for the least pair of routes from a root to a target; the desk keeps the hold.
pub fn hold_circuit<N: Network>(
    desk: &mut Desk<N>,
    circuit: u8,
    root: u16,
    target: u16,
    kind: CostKind,
) -> Result<(), HoldRefusal> {
    let mut bytes = [0u8; SITES];
    let mut marks = Bytes::new(&mut bytes);
    hold_by(desk, circuit, root, target, kind, &mut marks)
}
