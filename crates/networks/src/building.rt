//! Why a network cannot be made or grow.
ghost use Rattle.std.specs.Prelude.{◌≡◌, Some};
ghost use Rattle.std.specs.Option.{ok_or};
ghost use Rattle.networks.specs.declared.building.BuildRefusal.TheVariants.{Memory};
ghost use Rattle.networks.specs.Refusing.{build_refusal, build_rule};

use refusals::{Refusal, Unlisted};
use std::alloc::AllocFailed;
use std::error::Error;
use std::fmt;

/// A number is outside its limits, or memory is wanting; the second has no number.
#[derive(Clone, Copy, PartialEq, Eq, Debug)]
pub enum BuildRefusal {
    OutsideLimits,
    Memory,
}

impl TryFrom<BuildRefusal> for Refusal {
    type Error = Unlisted;

    ghost try_from_gives = { λ why r. r ≡ ok_or (build_refusal why) (record {}) };

    fn try_from(why: BuildRefusal) -> Result<Refusal, Unlisted> {
        match why {
            BuildRefusal::OutsideLimits => Ok(Refusal::OutsideLimits),
            BuildRefusal::Memory => Err(Unlisted),
        }
    }
}

impl<T: Drop> From<AllocFailed<T>> for BuildRefusal {
    ghost from_gives = { λ _ why. why ≡ Memory };

    fn from(_failed: AllocFailed<T>) -> Self {
        Self::Memory
    }
}

// An `impl` for each enum: one for whatever converts to a refusal would be one for types of other crates too.
impl fmt::Display for BuildRefusal {
    ghost output = { λ why. Some (build_rule why) };

    fn fmt<W: fmt::Write>(&self, f: &mut fmt::Formatter<W>) -> fmt::Result {
        match Refusal::try_from(*self) {
            Ok(refusal) => refusal.fmt(f),
            Err(Unlisted) => f.write_str("memory is wanting"),
        }
    }
}

impl Error for BuildRefusal {}
