//! The kinds that compare a first number, and a second where the first is equal.
ghost use Rattle.std.specs.Prelude.{◌≡◌, max, unsigned_abs};
ghost use Rattle.costs.specs.Pairs.{Numbers, Small, Positive, pair_ops, poles_then_metres};
ghost use Rattle.costs.specs.PairLaws.{pair_laws, pair_above};
ghost use Rattle.std.proofs.Common.{rules};

use crate::kind::Cost;
use crate::link::Lengths;
use crate::sizes::{size, within, within_together};
use std::marker::PhantomData;

/// Which two numbers a link gives: the one that is compared first, then the other.
pub trait Parts {
    ghost numbers: { Numbers };

    /// The number that is compared first.
    fn first(lengths: Lengths) -> u32
        ensures { result ≡ numbers.first lengths };

    /// The number that is compared where the first is equal.
    fn second(lengths: Lengths) -> u32
        ensures { result ≡ numbers.second lengths };

    ghost small: { Small numbers };

    ghost above_zero: { Positive numbers };
}

/// A cost of two numbers, of which the first decides, and the second where the first is equal.
#[derive_where(Clone, Copy, PartialEq, Eq, PartialOrd, Ord, Debug)]
pub struct FirstThen<P> {
    first: i64,
    second: i64,
    parts: PhantomData<P>,
}

impl<P> FirstThen<P> {
    /// The number that is compared first.
    pub fn first(self) -> i64
        ensures { result ≡ self.first }
    {
        self.first // decides
    }

    /// The number that is compared where the first is equal.
    pub fn second(self) -> i64
        ensures { result ≡ self.second }
    {
        self.second // decides where the first is equal
    }

    /// The larger of the two sizes.
    fn size(self) -> u64
        ensures { result ≡ max (unsigned_abs self.first) (unsigned_abs self.second) }
    {
        size(self.first).max(size(self.second))
    }
}

impl<P: Parts> Cost for FirstThen<P> {
    ghost ops = { pair_ops P.Parts.numbers };

    ghost lawful = { pair_laws P P.Parts.numbers P.Parts.small };

    ghost above_zero = { pair_above P P.Parts.numbers P.Parts.above_zero };

    fn zero() -> FirstThen<P> {
        FirstThen {
            first: 0,
            second: 0,
            parts: PhantomData,
        }
    }

    fn sum(self, other: FirstThen<P>) -> FirstThen<P> {
        if within_together(self.size(), other.size()) {
            FirstThen {
                first: self.first + other.first,
                second: self.second + other.second,
                parts: PhantomData,
            }
        } else {
            FirstThen::zero()
        }
    }

    fn negation(self) -> FirstThen<P> {
        if within(self.size()) {
            FirstThen {
                first: -self.first,
                second: -self.second,
                parts: PhantomData,
            }
        } else {
            FirstThen::zero()
        }
    }

    fn less(self, other: FirstThen<P>) -> bool {
        self < other
    }

    fn of_link(lengths: Lengths) -> FirstThen<P> {
        FirstThen {
            first: i64::from(P::first(lengths)),
            second: i64::from(P::second(lengths)),
            parts: PhantomData,
        }
    }
}

/// Pole metres first, then metres.
pub struct PolesThenMetres;

impl Parts for PolesThenMetres {
    ghost numbers = { poles_then_metres };

    ghost small = { Prim.search rules };

    ghost above_zero = { Prim.search rules };

    fn first(lengths: Lengths) -> u32 {
        lengths.poles
    }

    fn second(lengths: Lengths) -> u32 {
        lengths.metres
    }
}

/// A cost in pole metres, and in metres where these are equal.
pub type PolesFirst = FirstThen<PolesThenMetres>;

impl FirstThen<PolesThenMetres> {
    /// How many pole metres this is.
    pub fn poles(self) -> i64
        ensures { result ≡ self.first }
    {
        self.first()
    }

    /// How many metres this is.
    pub fn metres(self) -> i64
        ensures { result ≡ self.second }
    {
        self.second()
    }
}
