//! What links and routes cost, in plain numbers.
use std::fmt;

/// The two kinds of cost.
#[derive(Clone, Copy, PartialEq, Eq)]
pub enum Kind {
    Length,
    PolesFirst,
}

impl fmt::Display for Kind {
    fn fmt<W: fmt::Write>(&self, f: &mut fmt::Formatter<W>) -> fmt::Result {
        f.write_str(match self {
            Kind::Length => "by length",
            Kind::PolesFirst => "by poles first",
        })
    }
}

/// A cost of one kind. Of pole metres and metres the first are compared first, and the others where these are equal.
#[derive(Clone, Copy, PartialEq, Eq, PartialOrd, Ord)]
pub enum PlainCost {
    Metres { metres: i64 },
    PolesFirst { poles: i64, metres: i64 },
}

impl fmt::Display for PlainCost {
    fn fmt<W: fmt::Write>(&self, f: &mut fmt::Formatter<W>) -> fmt::Result {
        match *self {
            PlainCost::Metres { metres } => write!(f, "{metres}"),
            PlainCost::PolesFirst { poles, metres } => write!(f, "{poles} on poles of {metres}"),
        }
    }
}

/// The metres and the pole metres of some links together.
#[derive(Clone, Copy)]
pub struct PlainLengths {
    pub metres: i64,
    pub poles: i64,
}

impl PlainLengths {
    /// The lengths of no link.
    pub const NOTHING: PlainLengths = PlainLengths {
        metres: 0,
        poles: 0,
    };

    /// Both together.
    pub fn sum(self, other: PlainLengths) -> PlainLengths {
        PlainLengths {
            metres: self.metres.saturating_add(other.metres),
            poles: self.poles.saturating_add(other.poles),
        }
    }

    /// What links of these lengths cost.
    pub fn cost(self, kind: Kind) -> PlainCost {
        let PlainLengths { metres, poles } = self;
        match kind {
            Kind::Length => PlainCost::Metres { metres },
            Kind::PolesFirst => PlainCost::PolesFirst { poles, metres },
        }
    }
}
