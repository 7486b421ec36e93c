//! Why the ledger refuses a call.
ghost use Rattle.std.specs.Prelude.{◌≡◌, Some};
ghost use Rattle.ledger.specs.Refusing.{refusal};
ghost use Rattle.refusals.specs.Numbers.{rule};

use refusals::Refusal;
use std::error::Error;
use std::fmt;

/// The number is no circuit's; the circuit's row is not in the state that the call is for; eight rows are held.
#[derive(Clone, Copy, PartialEq, Eq, Debug)]
pub enum LedgerRefusal {
    NotCircuit,
    WrongRow,
    EightHeld,
}

impl From<LedgerRefusal> for Refusal {
    ghost from_gives = { λ why r. r ≡ refusal why };

    fn from(why: LedgerRefusal) -> Refusal {
        match why {
            LedgerRefusal::NotCircuit => Refusal::NotCircuit,
            LedgerRefusal::WrongRow => Refusal::WrongRow,
            LedgerRefusal::EightHeld => Refusal::EightHeld,
        }
    }
}

// An `impl` for each enum: one for whatever converts to a refusal would be one for types of other crates too.
impl fmt::Display for LedgerRefusal {
    ghost output = { λ why. Some (rule (refusal why)) };

    fn fmt<W: fmt::Write>(&self, f: &mut fmt::Formatter<W>) -> fmt::Result {
        Refusal::from(*self).fmt(f)
    }
}

impl Error for LedgerRefusal {}
