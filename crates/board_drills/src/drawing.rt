//! Networks drawn at random, each as plain numbers and as a network.
use crate::given::{District, Given, GivenLink};
use grids::{GridPlan, street_grid};
use layers::closed::Closing;
use layers::surcharged::Surcharge;
use networks::model::Link;
use networks::owned::OwnedNetwork;
use plain_routes::numbers::Numbers;
use std::alloc::Global;

// The metres and the pole metres of a link: few, so that costs tie, and some that amounts soon raise to the most.
const LENGTHS: [(u32, u32); 8] = [
    (1, 0),
    (1, 1),
    (2, 0),
    (2, 1),
    (3, 0),
    (3, 3),
    (999_999, 1),
    (1_000_000, 1_000_000),
];

/// How many channels links have.
#[derive(Clone, Copy, PartialEq, Eq)]
pub enum Width {
    Narrow,
    Wide,
}

impl Width {
    // The channels of a link.
    fn channels(self, numbers: &mut Numbers) -> u16 {
        match self {
            Width::Narrow => numbers.below(3).saturating_add(1),
            Width::Wide => numbers.below(9).saturating_add(8),
        }
    }
}

// A link with these ends, one in twelve of them dark, and one in four with channels taken.
fn drawn_link(numbers: &mut Numbers, width: Width, ends: (u16, u16)) -> GivenLink {
    let (metres, poles) = numbers.one_of(&LENGTHS).unwrap_or((1, 0));
    let channels = width.channels(numbers);
    let taken = if numbers.is_one_in(4) {
        numbers.below(channels.saturating_add(1))
    } else {
        0
    };
    GivenLink {
        start: ends.0,
        end: ends.1,
        metres,
        poles,
        channels,
        taken,
        lit: !numbers.is_one_in(12),
    }
}

/// A network of 3 to 7 sites and 8 to 20 links.
pub fn drawn_network(heap: Global, numbers: &mut Numbers, width: Width) -> anyhow::Result<Given> {
    let sites = numbers.below(5).saturating_add(3);
    let links = numbers.below(13).saturating_add(8);
    let mut given = Given::empty(heap, sites);
    let mut ends = (0, 0);
    for _ in 0..links {
        ends = numbers.ends(sites, ends);
        given.links.push(drawn_link(numbers, width, ends))?;
    }
    Ok(given)
}

/// The network that owns the links of plain numbers.
pub fn owned(heap: Global, given: &Given) -> anyhow::Result<OwnedNetwork> {
    let mut network = OwnedNetwork::empty(heap, given.sites)?;
    for link in &given.links {
        network.add(Link {
            start: link.start,
            end: link.end,
            metres: link.metres,
            poles: link.poles,
            channels: link.channels,
            taken: link.taken,
            lit: link.lit,
        })?;
    }
    Ok(network)
}

/// A district of 2 to 3 columns and 2 to 3 rows.
pub fn drawn_district(numbers: &mut Numbers) -> District {
    District {
        columns: numbers.below(2).saturating_add(2),
        rows: numbers.below(2).saturating_add(2),
        along: u32::from(numbers.below(3)).saturating_add(1),
        across: u32::from(numbers.below(3)).saturating_add(1),
        channels: numbers.below(6).saturating_add(1),
    }
}

/// The street grid of a district.
pub fn grid(heap: Global, plan: District) -> anyhow::Result<OwnedNetwork> {
    let grid = street_grid(
        heap,
        GridPlan {
            columns: plan.columns,
            rows: plan.rows,
            along: plan.along,
            across: plan.across,
            channels: plan.channels,
        },
    )?;
    Ok(grid)
}

/// Amounts for the links of a network, on one in three of them.
pub fn drawn_amounts(
    heap: Global,
    numbers: &mut Numbers,
    given: &Given,
) -> anyhow::Result<Vec<u32>> {
    let mut amounts = Vec::new(heap);
    for _ in &given.links {
        let amount = if numbers.is_one_in(3) {
            numbers.below(3)
        } else {
            0
        };
        amounts.push(u32::from(amount))?;
    }
    Ok(amounts)
}

/// Which links of a network are closed: one in ten of them.
pub fn drawn_closings(
    heap: Global,
    numbers: &mut Numbers,
    given: &Given,
) -> anyhow::Result<Vec<bool>> {
    let mut closed = Vec::new(heap);
    for _ in &given.links {
        closed.push(numbers.is_one_in(10))?;
    }
    Ok(closed)
}

/// A pile of closings over surcharges over a network of plain numbers.
pub fn pile(
    heap: Global,
    given: &Given,
    amounts: &[u32],
    closed: &[bool],
) -> anyhow::Result<Closing<Surcharge<OwnedNetwork>>> {
    let mut surcharged = Surcharge::over(owned(heap, given)?);
    for (link, amount) in (0u16..).zip(amounts.iter()) {
        surcharged.surcharge(link, *amount)?;
    }
    let mut pile = Closing::over(surcharged);
    for (link, is_closed) in (0u16..).zip(closed.iter()) {
        if *is_closed {
            pile.close(link)?;
        }
    }
    Ok(pile)
}
