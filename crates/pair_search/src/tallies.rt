//! How much was compared.
use plain_routes::enumeration::Answer;
use std::fmt;

/// How many networks, quotes and survey entries were compared, and how many quotes had a pair, a cutting link and no route.
#[derive(Clone, Copy)]
pub struct Tally {
    networks: u32,
    quotes: u32,
    entries: u32,
    pairs: u32,
    cuts: u32,
    none: u32,
}

impl Tally {
    /// The tally of nothing yet.
    pub const NOTHING: Tally = Tally {
        networks: 0,
        quotes: 0,
        entries: 0,
        pairs: 0,
        cuts: 0,
        none: 0,
    };

    /// Counts a network.
    pub fn add_network(&mut self) {
        self.networks = self.networks.saturating_add(1);
    }

    /// Counts the survey entry of a root.
    pub fn add_root(&mut self) {
        self.entries = self.entries.saturating_add(1);
    }

    /// Counts the quote and the survey entry of a target by their answer.
    pub fn add_target(&mut self, answer: Answer) {
        self.quotes = self.quotes.saturating_add(1);
        self.entries = self.entries.saturating_add(1);
        let answers = match answer {
            Answer::NoRoute => &mut self.none,
            Answer::OneLink { .. } => &mut self.cuts,
            Answer::Pair { .. } => &mut self.pairs,
        };
        *answers = answers.saturating_add(1);
    }
}

impl fmt::Display for Tally {
    fn fmt<W: fmt::Write>(&self, f: &mut fmt::Formatter<W>) -> fmt::Result {
        let Tally {
            networks,
            quotes,
            entries,
            pairs,
            cuts,
            none,
        } = *self;
        write!(
            f,
            "networks {networks} quotes {quotes} (pairs {pairs} cuts {cuts} no routes {none}) survey entries {entries}"
        )
    }
}
