//! Cost kinds, and the total of a pair of routes by either, as it is told.
use costs::{Length, PolesFirst};
use std::fmt;

/// A cost kind: metres alone, or pole metres and then metres.
#[derive(Clone, Copy, PartialEq, Eq, Debug)]
pub enum CostKind {
    Length,
    PolesFirst,
}

/// A total by its cost kind: its metres, or its pole metres and then its metres.
#[derive(Clone, Copy, PartialEq, Eq, Debug)]
pub enum Total {
    Length { metres: i64 },
    PolesFirst { poles: i64, metres: i64 },
}

impl From<Length> for Total {
    fn from(cost: Length) -> Total {
        Total::Length {
            metres: cost.metres(),
        }
    }
}

impl From<PolesFirst> for Total {
    fn from(cost: PolesFirst) -> Total {
        Total::PolesFirst {
            poles: cost.poles(),
            metres: cost.metres(),
        }
    }
}

impl fmt::Display for Total {
    fn fmt<W: fmt::Write>(&self, f: &mut fmt::Formatter<W>) -> fmt::Result {
        match *self {
            Total::Length { metres } => write!(f, "{metres}"),
            Total::PolesFirst { poles, metres } => write!(f, "{poles} {metres}"),
        }
    }
}
