//! What a cost kind is: its calls, their meaning and its laws.
ghost use Rattle.std.specs.Prelude.{◌≡◌, ◌≤◌};
ghost use Rattle.costs.specs.Costs.{Ops, Laws, AboveZero, SizesStand, limit, worked, negated};

use crate::link::Lengths;

/// A kind of cost. A sum or a negation past the limit of sizes is zero.
pub trait Cost: Sized {
    ghost ops: { Ops Self };

    /// The cost of nothing.
    fn zero() -> Self
        ensures { result ≡ ops.zero };

    /// The sum, or zero where the two sizes together pass the limit.
    fn sum(self, other: Self) -> Self
        ensures { result ≡ worked ops self other };

    /// The negation, or zero where the size passes the limit.
    fn negation(self) -> Self
        ensures { result ≡ negated ops self };

    /// Whether this cost is less than the other.
    // Not `PartialOrd`: a kind owes an order, and no equality of its own.
    fn less(self, other: Self) -> bool
        ensures { result ≡ ops.less self other };

    /// The cost of a link with these lengths.
    fn of_link(lengths: Lengths) -> Self
        ensures value { result ≡ ops.link lengths }
        ensures small { ops.size result ≤ limit };

    ghost lawful: { Laws ops };

    ghost above_zero: { AboveZero ops };
}

/// No value that a call of a cost kind makes is larger than the limit.
pub fn sizes_stand<C: Cost>()
    ensures { SizesStand C.Cost.ops }
{}
