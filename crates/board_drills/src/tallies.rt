//! How much was compared.
use plain_routes::enumeration::Answer;
use refusals::Refusal;
use std::fmt;

// One more than the highest number of a refusal.
const NUMBERS: usize = 20;

/// How many boards and calls were compared, how many holds were accepted, how many plannings had a pair, a cutting link and no route, how many certificates were written, and how many calls were refused by each number.
#[derive(Clone, Copy)]
pub struct Tally {
    boards: u32,
    calls: u32,
    holds: u32,
    pairs: u32,
    cuts: u32,
    none: u32,
    certificates: u32,
    refused: [u32; NUMBERS],
}

impl Tally {
    /// The tally of nothing yet.
    pub const NOTHING: Tally = Tally {
        boards: 0,
        calls: 0,
        holds: 0,
        pairs: 0,
        cuts: 0,
        none: 0,
        certificates: 0,
        refused: [0; NUMBERS],
    };

    /// Counts a board.
    pub fn add_board(&mut self) {
        self.boards = self.boards.saturating_add(1);
    }

    /// Counts a call by its refusal, if it was refused.
    pub fn add_call(&mut self, refused: Option<Refusal>) {
        self.calls = self.calls.saturating_add(1);
        if let Some(refusal) = refused {
            if let Some(count) = self.refused.get_mut(usize::from(refusal.number())) {
                *count = count.saturating_add(1);
            }
        }
    }

    /// Counts an accepted hold.
    pub fn add_hold(&mut self) {
        self.holds = self.holds.saturating_add(1);
    }

    /// Counts a written certificate.
    pub fn add_certificate(&mut self) {
        self.certificates = self.certificates.saturating_add(1);
    }

    /// Counts a planning by its answer.
    pub fn add_plan(&mut self, answer: Answer) {
        let answers = match answer {
            Answer::NoRoute => &mut self.none,
            Answer::OneLink { .. } => &mut self.cuts,
            Answer::Pair { .. } => &mut self.pairs,
        };
        *answers = answers.saturating_add(1);
    }

    /// How many calls were refused by a number.
    pub fn refused(&self, number: u8) -> u32 {
        self.refused.get(usize::from(number)).copied().unwrap_or(0)
    }
}

impl fmt::Display for Tally {
    fn fmt<W: fmt::Write>(&self, f: &mut fmt::Formatter<W>) -> fmt::Result {
        let Tally {
            boards,
            calls,
            holds,
            pairs,
            cuts,
            none,
            certificates,
            refused: _,
        } = *self;
        write!(
            f,
            "boards {boards} calls {calls} holds {holds} certificates {certificates} plannings: pairs {pairs} cuts {cuts} no routes {none}"
        )
    }
}
