//! Why the planner gives no quote or survey.
ghost use Rattle.std.specs.Prelude.{◌≡◌, Some};
ghost use Rattle.planner_tables.specs.Refusing.{refusal};
ghost use Rattle.refusals.specs.Numbers.{rule};

use refusals::Refusal;
use std::error::Error;
use std::fmt;

/// The root or the target is not a site, or they are equal; a table is too short; no route leads there; every route uses one link.
#[derive(Clone, Copy, PartialEq, Eq, Debug)]
pub enum PlannerRefusal {
    NotSites,
    TableTooShort,
    NoRoute,
    OneLink { link: u16 },
}

impl From<PlannerRefusal> for Refusal {
    ghost from_gives = { λ why r. r ≡ refusal why };

    fn from(why: PlannerRefusal) -> Refusal {
        match why {
            PlannerRefusal::NotSites => Refusal::NotSites,
            PlannerRefusal::TableTooShort => Refusal::TableTooShort,
            PlannerRefusal::NoRoute => Refusal::NoRoute,
            PlannerRefusal::OneLink { link } => Refusal::OneLink { link },
        }
    }
}

// An `impl` for each enum: one for whatever converts to a refusal would be one for types of other crates too.
impl fmt::Display for PlannerRefusal {
    ghost output = { λ why. Some (rule (refusal why)) };

    fn fmt<W: fmt::Write>(&self, f: &mut fmt::Formatter<W>) -> fmt::Result {
        Refusal::from(*self).fmt(f)
    }
}

impl Error for PlannerRefusal {}
