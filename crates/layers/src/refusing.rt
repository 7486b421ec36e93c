//! Why the surcharge layer does not set an amount.
ghost use Rattle.std.specs.Prelude.{◌≡◌, Some};
ghost use Rattle.layers.specs.Refusing.{refusal};
ghost use Rattle.refusals.specs.Numbers.{rule};

use refusals::Refusal;
use std::error::Error;
use std::fmt;

/// The link number is too high, or the amount is above 1,000,000.
#[derive(Clone, Copy, PartialEq, Eq, Debug)]
pub enum SurchargeRefusal {
    LinkTooHigh,
    OutsideLimits,
}

impl From<SurchargeRefusal> for Refusal {
    ghost from_gives = { λ why r. r ≡ refusal why };

    fn from(why: SurchargeRefusal) -> Refusal {
        match why {
            SurchargeRefusal::LinkTooHigh => Refusal::LinkTooHigh,
            SurchargeRefusal::OutsideLimits => Refusal::OutsideLimits,
        }
    }
}

// An `impl` for each enum: one for whatever converts to a refusal would be one for types of other crates too.
impl fmt::Display for SurchargeRefusal {
    ghost output = { λ why. Some (rule (refusal why)) };

    fn fmt<W: fmt::Write>(&self, f: &mut fmt::Formatter<W>) -> fmt::Result {
        Refusal::from(*self).fmt(f)
    }
}

impl Error for SurchargeRefusal {}
