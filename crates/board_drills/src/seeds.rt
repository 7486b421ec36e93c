//! The drills of all seeds: over narrow and wide networks, street grids, and piles of layers.
use crate::drawing::{
    Width, drawn_amounts, drawn_closings, drawn_district, drawn_network, grid, owned, pile,
};
use crate::drill::drill;
use crate::given::Given;
use crate::tallies::Tally;
use plain_routes::numbers::Numbers;

// How many seeds there are.
const SEEDS: u32 = 240;

fn drill_owned(
    rt: &HostRuntime,
    seed: u32,
    numbers: &mut Numbers,
    width: Width,
    tally: &mut Tally,
) -> anyhow::Result<()> {
    let heap = rt.alloc();
    let given = drawn_network(heap, numbers, width)?;
    let networks = (owned(heap, &given)?, owned(heap, &given)?);
    drill(rt, seed, numbers, &given, networks, tally)
}

fn drill_grid(
    rt: &HostRuntime,
    seed: u32,
    numbers: &mut Numbers,
    tally: &mut Tally,
) -> anyhow::Result<()> {
    let heap = rt.alloc();
    let plan = drawn_district(numbers);
    let given = Given::district(heap, plan)?;
    let networks = (grid(heap, plan)?, grid(heap, plan)?);
    drill(rt, seed, numbers, &given, networks, tally)
}

fn drill_pile(
    rt: &HostRuntime,
    seed: u32,
    numbers: &mut Numbers,
    tally: &mut Tally,
) -> anyhow::Result<()> {
    let heap = rt.alloc();
    let below = drawn_network(heap, numbers, Width::Narrow)?;
    let amounts = drawn_amounts(heap, numbers, &below)?;
    let closed = drawn_closings(heap, numbers, &below)?;
    let amounts = amounts.as_slice();
    let closed = closed.as_slice();
    let given = below.layered(heap, amounts, closed)?;
    let first = pile(heap, &below, amounts, closed)?;
    let second = pile(heap, &below, amounts, closed)?;
    drill(rt, seed, numbers, &given, (first, second), tally)
}

/// Drives the boards of all seeds, and answers how much was compared.
pub fn drill_all(rt: &HostRuntime) -> anyhow::Result<Tally> {
    let mut tally = Tally::NOTHING;
    for seed in 1..=SEEDS {
        let mut numbers = Numbers::seeded(u64::from(seed));
        match seed % 4 {
            0 => drill_owned(rt, seed, &mut numbers, Width::Narrow, &mut tally)?,
            1 => drill_owned(rt, seed, &mut numbers, Width::Wide, &mut tally)?,
            2 => drill_grid(rt, seed, &mut numbers, &mut tally)?,
            _ => drill_pile(rt, seed, &mut numbers, &mut tally)?,
        }
    }
    Ok(tally)
}
