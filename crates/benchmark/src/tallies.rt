//! What the outcomes of a survey come to.
use costs::Length;
use std::fmt;
use surveys::Outcome;

/// How many sites have a pair, a cutting link and no route, and a checksum of all outcomes in order.
#[derive(Clone, Copy, PartialEq, Eq)]
pub struct Tally {
    pub pairs: u32,
    pub cuts: u32,
    pub none: u32,
    pub checksum: u64,
}

impl Tally {
    /// The tally of some outcomes.
    pub fn of(outcomes: &[Outcome<Length>]) -> Tally {
        let mut tally = Tally {
            pairs: 0,
            cuts: 0,
            none: 0,
            checksum: 0xcbf2_9ce4_8422_2325,
        };
        for outcome in outcomes {
            tally.add(*outcome);
        }
        tally
    }

    // Joins a number to the checksum, in the manner of FNV-1a.
    fn join(&mut self, number: u64) {
        self.checksum = (self.checksum ^ number).wrapping_mul(0x100_0000_01b3);
    }

    // Counts an outcome, and joins its case and its value to the checksum.
    fn add(&mut self, outcome: Outcome<Length>) {
        match outcome {
            Outcome::Root => self.join(0),
            Outcome::Total(total) => {
                self.pairs = self.pairs.saturating_add(1);
                self.join(1);
                self.join(total.metres().unsigned_abs());
            }
            Outcome::NoRoute => {
                self.none = self.none.saturating_add(1);
                self.join(2);
            }
            Outcome::OneLink { link } => {
                self.cuts = self.cuts.saturating_add(1);
                self.join(3);
                self.join(u64::from(link));
            }
        }
    }
}

impl fmt::Display for Tally {
    fn fmt<W: fmt::Write>(&self, f: &mut fmt::Formatter<W>) -> fmt::Result {
        let Tally {
            pairs,
            cuts,
            none,
            checksum,
        } = *self;
        write!(
            f,
            "pairs {pairs} cuts {cuts} none {none} checksum {checksum:016x}"
        )
    }
}
