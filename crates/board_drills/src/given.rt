//! The networks that boards are begun with, in plain numbers.
use std::alloc::{AllocError, Global};

/// A link of a network that a board is begun with.
#[derive(Clone, Copy)]
pub struct GivenLink {
    pub start: u16,
    pub end: u16,
    pub metres: u32,
    pub poles: u32,
    pub channels: u16,
    pub taken: u16,
    pub lit: bool,
}

/// The most metres that a link shows.
pub const MOST_METRES: u32 = 1_000_000;

impl GivenLink {
    /// The link with an amount on it: its metres are cut off.
    pub fn surcharged(self, amount: u32) -> GivenLink {
        GivenLink {
            metres: self.metres.saturating_add(amount).min(MOST_METRES),
            ..self
        }
    }

    /// The link as it shows where it is closed or open.
    pub fn closed(self, closed: bool) -> GivenLink {
        GivenLink {
            lit: self.lit && !closed,
            ..self
        }
    }

    // A link there or back of a street.
    fn of_street(start: u16, end: u16, metres: u32, channels: u16) -> GivenLink {
        GivenLink {
            start,
            end,
            metres,
            poles: 0,
            channels,
            taken: 0,
            lit: true,
        }
    }
}

/// A network that a board is begun with.
#[derive(Drop)]
pub struct Given {
    pub sites: u16,
    pub links: Vec<GivenLink>,
}

/// The numbers of a district of streets.
#[derive(Clone, Copy)]
pub struct District {
    pub columns: u16,
    pub rows: u16,
    pub along: u32,
    pub across: u32,
    pub channels: u16,
}

impl Given {
    /// A network of so many sites and no link yet.
    pub fn empty(heap: Global, sites: u16) -> Given {
        Given {
            sites,
            links: Vec::new(heap),
        }
    }

    /// A network of the same sites whose links have amounts on them or are closed.
    pub fn layered(
        &self,
        heap: Global,
        amounts: &[u32],
        closed: &[bool],
    ) -> Result<Given, AllocError> {
        let mut layered = Given::empty(heap, self.sites);
        let changes = amounts.iter().zip(closed.iter());
        for (link, (amount, is_closed)) in self.links.iter().zip(changes) {
            let shown = link.surcharged(*amount).closed(*is_closed);
            layered.links.push(shown)?;
        }
        Ok(layered)
    }

    // Adds a street.
    fn add_street(
        &mut self,
        from: u16,
        to: u16,
        metres: u32,
        channels: u16,
    ) -> Result<(), AllocError> {
        self.links
            .push(GivenLink::of_street(from, to, metres, channels))?;
        self.links
            .push(GivenLink::of_street(to, from, metres, channels))?;
        Ok(())
    }

    /// The links of a district: the streets along the rows, row by row, and then those across.
    pub fn district(heap: Global, plan: District) -> Result<Given, AllocError> {
        let District {
            columns,
            rows,
            along,
            across,
            channels,
        } = plan;
        let mut given = Given::empty(heap, columns.saturating_mul(rows));
        for row in 0..rows {
            for column in 1..columns {
                let to = row.saturating_mul(columns).saturating_add(column);
                given.add_street(to.saturating_sub(1), to, along, channels)?;
            }
        }
        for row in 1..rows {
            for column in 0..columns {
                let to = row.saturating_mul(columns).saturating_add(column);
                given.add_street(to.saturating_sub(columns), to, across, channels)?;
            }
        }
        Ok(given)
    }
}
