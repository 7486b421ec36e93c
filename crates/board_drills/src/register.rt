//! The register that a board is compared with: plain numbers, kept beside the board by plain code.
use crate::given::{Given, GivenLink};
use plain_routes::plain_costs::PlainLengths;
use plain_routes::routes::{PlainLink, Route};
use refusals::Refusal;
use std::alloc::{AllocError, Global};

// The number of circuits.
const CIRCUITS: usize = 32;

// The most rows that may be held.
const MOST_HELD: usize = 8;

/// What is known of a circuit: what its hold asked for, and its routes with their lengths as they were then.
#[derive(Clone, Copy)]
pub struct Circuit {
    pub root: u16,
    pub target: u16,
    pub one: Route,
    pub two: Route,
}

impl Circuit {
    /// The lengths of both routes together.
    pub fn lengths(&self) -> PlainLengths {
        self.one.lengths.sum(self.two.lengths)
    }

    // Whether it runs over a link.
    fn runs_over(&self, link: u16) -> bool {
        self.one.used.has(link) || self.two.used.has(link)
    }
}

/// A row: nothing, or a circuit that is held or confirmed.
#[derive(Clone, Copy)]
pub enum PlainRow {
    Vacant,
    Held(Circuit),
    Confirmed(Circuit),
}

impl PlainRow {
    /// The circuit, if there is one.
    pub fn circuit(&self) -> Option<Circuit> {
        match *self {
            PlainRow::Vacant => None,
            PlainRow::Held(circuit) | PlainRow::Confirmed(circuit) => Some(circuit),
        }
    }

    fn is_held(&self) -> bool {
        matches!(self, PlainRow::Held(_))
    }
}

/// A link given, whether it is closed, and the amount on it.
#[derive(Clone, Copy)]
pub struct RegisterLink {
    given: GivenLink,
    closed: bool,
    amount: u32,
}

/// The number of a board, its links, and the rows of its circuits, the row of circuit 1 first.
#[derive(Drop)]
pub struct Register {
    pub number: u32,
    pub sites: u16,
    links: Vec<RegisterLink>,
    rows: [PlainRow; CIRCUITS],
}

impl Register {
    /// The register of a board just begun.
    pub fn begun(heap: Global, number: u32, given: &Given) -> Result<Register, AllocError> {
        let mut links = Vec::new(heap);
        for link in &given.links {
            links.push(RegisterLink {
                given: *link,
                closed: false,
                amount: 0,
            })?;
        }
        Ok(Register {
            number,
            sites: given.sites,
            links,
            rows: [PlainRow::Vacant; CIRCUITS],
        })
    }

    /// How many links there are.
    pub fn count(&self) -> u16 {
        u16::try_from(self.links.len()).unwrap_or(u16::MAX)
    }

    // How many circuits run over a link.
    fn circuits_over(&self, link: u16) -> u16 {
        let over = self.rows.iter().filter(|row| row
            .circuit()
            .is_some_and(|circuit| circuit.runs_over(link)));
        u16::try_from(over.count()).unwrap_or(u16::MAX)
    }

    /// A link as it shows now.
    pub fn shown(&self, link: u16) -> Result<GivenLink, Refusal> {
        let Some(kept) = self.links.get(usize::from(link)) else {
            return Err(Refusal::LinkTooHigh);
        };
        let shown = kept.given.surcharged(kept.amount).closed(kept.closed);
        Ok(GivenLink {
            taken: shown.taken.saturating_add(self.circuits_over(link)),
            ..shown
        })
    }

    /// All links as they can be used now.
    pub fn plain_links(&self, heap: Global) -> Result<Vec<PlainLink>, AllocError> {
        let mut links = Vec::new(heap);
        for number in 0..self.count() {
            if let Ok(shown) = self.shown(number) {
                links.push(PlainLink {
                    number,
                    start: shown.start,
                    end: shown.end,
                    lengths: PlainLengths {
                        metres: i64::from(shown.metres),
                        poles: i64::from(shown.poles),
                    },
                    usable: shown.lit && shown.taken < shown.channels,
                })?;
            }
        }
        Ok(links)
    }

    /// Closes or reopens a link.
    pub fn set_closed(&mut self, link: u16, closed: bool) -> Result<(), Refusal> {
        let Some(kept) = self.links.get_mut(usize::from(link)) else {
            return Err(Refusal::LinkTooHigh);
        };
        kept.closed = closed;
        Ok(())
    }

    /// Sets the amount on a link.
    pub fn surcharge(&mut self, link: u16, amount: u32) -> Result<(), Refusal> {
        let Some(kept) = self.links.get_mut(usize::from(link)) else {
            return Err(Refusal::LinkTooHigh);
        };
        if amount > 1_000_000 {
            return Err(Refusal::OutsideLimits);
        }
        kept.amount = amount;
        Ok(())
    }

    /// The row of a circuit.
    pub fn row(&self, circuit: u8) -> Result<PlainRow, Refusal> {
        let place = usize::from(circuit).checked_sub(1);
        let row = place.and_then(|place| self.rows.get(place).copied());
        row.ok_or(Refusal::NotCircuit)
    }

    // Puts something into the row of a circuit.
    fn set_row(&mut self, circuit: u8, entry: PlainRow) {
        if let Some(place) = usize::from(circuit).checked_sub(1) {
            if let Some(row) = self.rows.get_mut(place) {
                *row = entry;
            }
        }
    }

    /// The circuits whose rows are not vacant.
    pub fn standing(&self, heap: Global) -> Result<Vec<u8>, AllocError> {
        let mut standing = Vec::new(heap);
        for (number, row) in (1u8..).zip(self.rows.iter()) {
            if row.circuit().is_some() {
                standing.push(number)?;
            }
        }
        Ok(standing)
    }

    /// Whether a circuit can be held now.
    pub fn can_hold(&self, circuit: u8) -> Result<(), Refusal> {
        if !matches!(&self.row(circuit)?, PlainRow::Vacant) {
            return Err(Refusal::WrongRow);
        }
        if self.rows.iter().filter(|row| row.is_held()).count() >= MOST_HELD {
            return Err(Refusal::EightHeld);
        }
        Ok(())
    }

    /// Enters a circuit as held.
    pub fn hold(&mut self, circuit: u8, entry: Circuit) {
        self.set_row(circuit, PlainRow::Held(entry));
    }

    /// Whether a circuit is held now.
    pub fn is_held(&self, circuit: u8) -> bool {
        self.row(circuit).is_ok_and(|row| row.is_held())
    }

    /// Confirms a circuit that is held.
    pub fn confirm(&mut self, circuit: u8) {
        if let Ok(PlainRow::Held(entry)) = self.row(circuit) {
            self.set_row(circuit, PlainRow::Confirmed(entry));
        }
    }

    /// Withdraws a circuit that is held.
    pub fn withdraw(&mut self, circuit: u8) {
        if self.is_held(circuit) {
            self.set_row(circuit, PlainRow::Vacant);
        }
    }

    /// Withdraws every circuit that is held.
    pub fn withdraw_all(&mut self) {
        for row in self.rows.iter_mut() {
            if row.is_held() {
                *row = PlainRow::Vacant;
            }
        }
    }

    /// The circuit whose row is confirmed.
    pub fn confirmed(&self, circuit: u8) -> Result<Circuit, Refusal> {
        match self.row(circuit)? {
            PlainRow::Confirmed(entry) => Ok(entry),
            _ => Err(Refusal::WrongRow),
        }
    }

    /// Releases a circuit that is confirmed.
    pub fn release(&mut self, circuit: u8) -> Result<(), Refusal> {
        let _entry = self.confirmed(circuit)?;
        self.set_row(circuit, PlainRow::Vacant);
        Ok(())
    }
}
