//! Why a board holds no circuit, and why it issues no certificate.
ghost use Rattle.std.specs.Prelude.{◌≡◌, Some};
ghost use Rattle.boards.specs.Refusing.{hold_refusal, issue_refusal};
ghost use Rattle.boards.specs.declared.refusing.HoldRefusal.TheVariants as not_held;
ghost use Rattle.boards.specs.declared.refusing.IssueRefusal.TheVariants as not_issued;
ghost use Rattle.refusals.specs.Numbers.{rule};

use ledger::LedgerRefusal;
use planner_tables::PlannerRefusal;
use refusals::Refusal;
use std::error::Error;
use std::fmt;

/// The ledger or the planner refuses.
#[derive(Clone, Copy, PartialEq, Eq, Debug)]
pub enum HoldRefusal {
    Ledger(LedgerRefusal),
    Planner(PlannerRefusal),
}

/// The ledger refuses, or the buffer is too short for the certificate.
#[derive(Clone, Copy, PartialEq, Eq, Debug)]
pub enum IssueRefusal {
    Ledger(LedgerRefusal),
    BufferTooShort,
}

impl From<LedgerRefusal> for HoldRefusal {
    ghost from_gives = { λ why r. r ≡ not_held.Ledger why };

    fn from(why: LedgerRefusal) -> Self {
        Self::Ledger(why)
    }
}

impl From<PlannerRefusal> for HoldRefusal {
    ghost from_gives = { λ why r. r ≡ not_held.Planner why };

    fn from(why: PlannerRefusal) -> Self {
        Self::Planner(why)
    }
}

impl From<LedgerRefusal> for IssueRefusal {
    ghost from_gives = { λ why r. r ≡ not_issued.Ledger why };

    fn from(why: LedgerRefusal) -> Self {
        Self::Ledger(why)
    }
}

/// Its place in the list of all refusals.
impl From<HoldRefusal> for Refusal {
    ghost from_gives = { λ why r. r ≡ hold_refusal why };

    fn from(why: HoldRefusal) -> Refusal {
        match why {
            HoldRefusal::Ledger(why) => Refusal::from(why),
            HoldRefusal::Planner(why) => Refusal::from(why),
        }
    }
}

/// Its place in the list of all refusals.
impl From<IssueRefusal> for Refusal {
    ghost from_gives = { λ why r. r ≡ issue_refusal why };

    fn from(why: IssueRefusal) -> Refusal {
        match why {
            IssueRefusal::Ledger(why) => Refusal::from(why),
            IssueRefusal::BufferTooShort => Refusal::BufferTooShort,
        }
    }
}

// An `impl` for each enum: one for whatever converts to a refusal would be one for types of other crates too.
impl fmt::Display for HoldRefusal {
    ghost output = { λ why. Some (rule (hold_refusal why)) };

    fn fmt<W: fmt::Write>(&self, f: &mut fmt::Formatter<W>) -> fmt::Result {
        f.write_str(Refusal::from(*self).rule())
    }
}

// An `impl` for each enum: one for whatever converts to a refusal would be one for types of other crates too.
impl fmt::Display for IssueRefusal {
    ghost output = { λ why. Some (rule (issue_refusal why)) };

    fn fmt<W: fmt::Write>(&self, f: &mut fmt::Formatter<W>) -> fmt::Result {
        Refusal::from(*self).fmt(f)
    }
}

impl Error for HoldRefusal {}

impl Error for IssueRefusal {}
