//! Street grids: districts planned as columns and rows of sites, each street a link there and a link back.
#![tactic(auto)]

ghost use Rattle.std.specs.Prelude.{◌≡◌, ℕ, ◌+◌, ◌-◌, ◌*◌, ◌≤◌, true, [], ◌∷◌, ◌++◌, length, MatchResult};
ghost use Rattle.networks.specs.declared.building.BuildRefusal.TheVariants.{Memory};
ghost use Rattle.networks.specs.Meaning.{link_sound};
ghost use Rattle.networks.specs.Owning.{owned_meaning};
ghost use Rattle.grids.specs.Streets.{street, two_ways, row_site, grid_within, Plan, Made, net, ReturnLinksStandBeside};

use networks::building::BuildRefusal;
use networks::limits::{MOST_CHANNELS, MOST_METRES};
use networks::model::Link;
use networks::owned::OwnedNetwork;
use std::alloc::Global;

/// What a grid is made of: so many columns and rows, with streets of one length along the rows and another across, and channels alike.
#[derive(Clone, Copy, PartialEq, Eq, Debug)]
pub struct GridPlan {
    pub columns: u16,
    pub rows: u16,
    pub along: u32,
    pub across: u32,
    pub channels: u16,
}

impl GridPlan {
    /// Whether every number is within its limits.
    #[tactic(auto, unfolding(crate::specs::Streets::grid_within))]
    pub fn is_within(&self) -> bool
        ensures { result ≡ grid_within self.now.columns self.now.rows self.now.along self.now.across self.now.channels }
    {
        let shape = (2..=16).contains(&self.columns) && (2..=16).contains(&self.rows);
        let lengths = (1..=MOST_METRES).contains(&self.along)
            && (1..=MOST_METRES).contains(&self.across);
        shape && lengths && (1..=MOST_CHANNELS).contains(&self.channels)
    }
}

// Adds a street's two links, there and back.
fn add_street(
    network: &mut OwnedNetwork,
    from: u16,
    to: u16,
    metres: u32,
    channels: u16,
) -> Result<(), BuildRefusal>
    requires there { link_sound (owned_meaning network.old).sites (street from to metres channels) ≡ true }
    requires back { link_sound (owned_meaning network.old).sites (street to from metres channels) ≡ true }
    requires room { length (owned_meaning network.old).links + 2 ≤ 2048 }
    ensures { MatchResult result (λ _. owned_meaning network.new ≡ net (owned_meaning network.old).sites ((owned_meaning network.old).links ++ street from to metres channels ∷ street to from metres channels ∷ [])) (λ e. e ≡ Memory) }
{
    network.add(Link::lit(from, to, metres, 0, channels))?;
    network.add(Link::lit(to, from, metres, 0, channels))
}

// Adds the streets along the rows.
fn add_rows(network: &mut OwnedNetwork, plan: GridPlan) -> Result<(), BuildRefusal>
    requires plan { Plan plan.columns plan.rows plan.along plan.channels }
    requires bare { owned_meaning network.old ≡ net (plan.columns * plan.rows) [] }
    ensures { MatchResult result (λ _. owned_meaning network.new ≡ net (plan.columns * plan.rows) (two_ways (row_site plan.columns) 1 plan.along plan.channels (plan.rows * (plan.columns - 1)))) (λ e. e ≡ Memory) }
{
    let streets = plan.columns - 1;
    for m in 0..plan.rows * streets {
        let site = m + m / streets;
        add_street(network, site, site + 1, plan.along, plan.channels)?;
    }
    Ok(())
}

// Adds the streets across the rows.
fn add_columns(network: &mut OwnedNetwork, plan: GridPlan) -> Result<(), BuildRefusal>
    requires plan { Plan plan.columns plan.rows plan.across plan.channels }
    requires sites { (owned_meaning network.old).sites ≡ plan.columns * plan.rows }
    requires links { length (owned_meaning network.old).links ≡ 2 * (plan.rows * (plan.columns - 1)) }
    ensures { MatchResult result (λ _. owned_meaning network.new ≡ net (plan.columns * plan.rows) ((owned_meaning network.old).links ++ two_ways (λ m. m) plan.columns plan.across plan.channels (plan.columns * (plan.rows - 1)))) (λ e. e ≡ Memory) }
{
    for site in 0..plan.columns * (plan.rows - 1) {
        add_street(
            network,
            site,
            site + plan.columns,
            plan.across,
            plan.channels,
        )?;
    }
    Ok(())
}

/// The grid of a plan.
pub fn street_grid(heap: Global, plan: GridPlan) -> Result<OwnedNetwork, BuildRefusal>
    ensures { Made plan.columns plan.rows plan.along plan.across plan.channels result }
{
    if !plan.is_within() {
        return Err(BuildRefusal::OutsideLimits);
    }
    let mut network = OwnedNetwork::empty(heap, plan.columns * plan.rows)?;
    add_rows(&mut network, plan)?;
    add_columns(&mut network, plan)?;
    Ok(network)
}

/// Theorem: in every grid each link has its return link beside it, and the grid's numbers determine it.
pub fn return_links_stand_beside()
    ensures { ReturnLinksStandBeside }
{}
