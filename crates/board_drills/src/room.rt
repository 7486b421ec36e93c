//! How long the tables of a call are.
use plain_routes::numbers::Numbers;

/// The tables that are lent to a call.
#[derive(Clone, Copy, PartialEq, Eq)]
pub enum Table {
    Distance,
    Tree,
    Parents,
    Order,
    Label,
    Entry,
    Turns,
    Struck,
    Piece,
    Part,
    Queue,
    Marks,
    RouteOne,
    RouteTwo,
    Survey,
}

const TABLES: [Table; 15] = [
    Table::Distance,
    Table::Tree,
    Table::Parents,
    Table::Order,
    Table::Label,
    Table::Entry,
    Table::Turns,
    Table::Struck,
    Table::Piece,
    Table::Part,
    Table::Queue,
    Table::Marks,
    Table::RouteOne,
    Table::RouteTwo,
    Table::Survey,
];

/// So many sites and some entries more, but in one table an entry less than there are sites, if one is short.
#[derive(Clone, Copy)]
pub struct Room {
    sites: usize,
    spare: usize,
    short: Option<Table>,
}

impl Room {
    /// Room for the sites, in one of ten calls with a short table.
    pub fn drawn(numbers: &mut Numbers, sites: u16) -> Room {
        let spare = usize::from(numbers.below(3));
        let short = if numbers.is_one_in(10) {
            numbers.one_of(&TABLES)
        } else {
            None
        };
        Room {
            sites: usize::from(sites),
            spare,
            short,
        }
    }

    /// How many entries a table has.
    pub fn of(&self, table: Table) -> usize {
        if self.short == Some(table) {
            self.sites.saturating_sub(1)
        } else {
            self.sites.saturating_add(self.spare)
        }
    }

    // Whether one of these tables is short.
    fn is_short_in(&self, tables: &[Table]) -> bool {
        tables.iter().any(|table| self.short == Some(*table))
    }

    /// Whether it is enough for a quote or a hold.
    pub fn is_enough_for_routes(&self) -> bool {
        self.short.is_none() || self.is_short_in(&[Table::Survey])
    }

    /// Whether it is enough for a survey.
    pub fn is_enough_for_survey(&self) -> bool {
        self.short.is_none() || self.is_short_in(&[Table::RouteOne, Table::RouteTwo])
    }
}
