//! The kind that counts metres.
ghost use Rattle.std.specs.Prelude.{◌≡◌};
ghost use Rattle.costs.specs.Lengths.{length_ops};
ghost use Rattle.std.proofs.Common.{rules};

use crate::kind::Cost;
use crate::link::Lengths;
use crate::sizes::{size, within, within_together};

/// A cost in metres.
// Written out beside `FirstThen`: one text for costs of one number and of two would need a trait of its own for their sums.
#[derive(Clone, Copy, PartialEq, Eq, PartialOrd, Ord, Debug)]
pub struct Length {
    metres: i64,
}

impl Length {
    /// How many metres this is.
    pub fn metres(self) -> i64
        ensures { result ≡ self.metres }
    {
        self.metres
    }
}

impl Cost for Length {
    ghost ops = { length_ops };

    ghost lawful = { Prim.search rules };

    ghost above_zero = { Prim.search rules };

    fn zero() -> Length {
        Length { metres: 0 }
    }

    fn sum(self, other: Length) -> Length {
        if within_together(size(self.metres), size(other.metres)) {
            Length {
                metres: self.metres + other.metres,
            }
        } else {
            Length::zero()
        }
    }

    fn negation(self) -> Length {
        if within(size(self.metres)) {
            Length {
                metres: -self.metres,
            }
        } else {
            Length::zero()
        }
    }

    fn less(self, other: Length) -> bool {
        self < other
    }

    fn of_link(lengths: Lengths) -> Length {
        Length {
            metres: i64::from(lengths.metres),
        }
    }
}
