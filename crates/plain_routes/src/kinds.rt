//! The planner's cost kinds, read as plain numbers.
use crate::plain_costs::{Kind, PlainCost};
use costs::{Cost, Length, PolesFirst};

/// A cost kind of the planner that enumeration knows too.
pub trait Known: Cost + Copy {
    /// Which of the two kinds this is.
    fn kind() -> Kind;

    /// The cost in plain numbers.
    fn plain(self) -> PlainCost;
}

impl Known for Length {
    fn kind() -> Kind {
        Kind::Length
    }

    fn plain(self) -> PlainCost {
        PlainCost::Metres {
            metres: self.metres(),
        }
    }
}

impl Known for PolesFirst {
    fn kind() -> Kind {
        Kind::PolesFirst
    }

    fn plain(self) -> PlainCost {
        PlainCost::PolesFirst {
            poles: self.poles(),
            metres: self.metres(),
        }
    }
}
