//! The lent tables of a run: the label of each site as a cost, a link and a turn, and the settled sites in their order.
ghost use Rattle.std.specs.Prelude.{◌≡◌, ◌<◌, ◌≤◌, length, slice_set, if◌then◌else◌};
ghost use Rattle.least_pairs.specs.Runs.{improves, relabelled, begun};
ghost use Rattle.runs.specs.Tables.{held};
ghost use Rattle.runs.specs.Turns.{costed};

use costs::Cost;

/// The entry that stands for none: the tables are plain u16.
pub const NONE: u16 = 65535;

/// The lent tables of a run: by site the cost, the link and the turn of its label, and the settled sites in their order. Each has room for so many sites.
// Tables side by side, lent as plain slices.
#[derive(Drop)]
pub struct RunTables<'a, C> {
    pub sites: u16,
    pub costs: &'a mut [C],
    pub links: &'a mut [u16],
    pub turns: &'a mut [u16],
    pub order: &'a mut [u16],
    pub ghost all_costs: { sites ≤ length costs.now },
    pub ghost all_links: { sites ≤ length links.now },
    pub ghost all_turns: { sites ≤ length turns.now },
    pub ghost all_settled: { sites ≤ length order.now },
}

/// A label: its cost, the link that gave it, and the site that was settled then.
#[derive(Clone, Copy)]
pub struct Label<C> {
    pub cost: C,
    pub link: u16,
    pub turn: u16,
}

impl<'a, C: Cost + Copy> RunTables<'a, C> {
    ghost use Rattle.runs.specs.Lent.{SameTables, labels_of};

    /// Fills the tables for a beginning: only the root has a label, which costs zero.
    pub(crate) fn begin(&mut self, root: u16)
        requires { root < self.old.sites }
        ensures same { SameTables self.old self.new }
        ensures labels { labels_of C.Cost.ops self.new ≡ (begun C.Cost.ops root).labels }
    {
        self.links.fill(NONE);
        let label = Label {
            cost: C::zero(),
            link: 0,
            turn: root,
        };
        self.write(root, label);
    }

    /// Gives a site a label.
    fn write(&mut self, site: u16, label: Label<C>)
        requires within { site < self.old.sites }
        requires real { label.link < 65535 }
        ensures same { SameTables self.old self.new }
        ensures order { self.new.order.now ≡ self.old.order.now }
        ensures labels { labels_of C.Cost.ops self.new ≡ relabelled (labels_of C.Cost.ops self.old) site (record { cost = label.cost; link = label.link; turn = label.turn }) }
    {
        let at = site as usize;
        self.costs[at] = label.cost;
        self.links[at] = label.link;
        self.turns[at] = label.turn;
    }

    /// The cost of a site's label, if it has one.
    fn cost_of(&self, site: u16) -> Option<C>
        requires { site < self.now.sites }
        ensures { result ≡ costed (labels_of C.Cost.ops self.now site) }
    {
        let at = site as usize;
        if self.links[at] == NONE {
            return None;
        }
        Some(self.costs[at])
    }

    /// Offers a label to a site, which takes it where it costs less than its own, or it has none. Says whether it did.
    pub(crate) fn relax(&mut self, site: u16, label: Label<C>) -> bool
        requires within { site < self.old.sites }
        requires real { label.link < 65535 }
        ensures same { SameTables self.old self.new }
        ensures order { self.new.order.now ≡ self.old.order.now }
        ensures answer { result ≡ improves C.Cost.ops label.cost (labels_of C.Cost.ops self.old site) }
        ensures after { labels_of C.Cost.ops self.new ≡ (if result then relabelled (labels_of C.Cost.ops self.old) site (record { cost = label.cost; link = label.link; turn = label.turn }) else labels_of C.Cost.ops self.old) }
    {
        let better = self.cost_of(site).is_none_or(|cost| label.cost.less(cost));
        if better {
            self.write(site, label);
        }
        better
    }

    /// Puts a settled site after so many others.
    pub(crate) fn settle(&mut self, count: u16, site: u16)
        requires { count < self.old.sites }
        ensures same { SameTables self.old self.new }
        ensures order { self.new.order.now ≡ slice_set self.old.order.now count site }
        ensures labels { labels_of C.Cost.ops self.new ≡ labels_of C.Cost.ops self.old }
    {
        self.order[count as usize] = site;
    }
}
