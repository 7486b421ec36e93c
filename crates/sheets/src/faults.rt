//! Why bytes are no sheet, with the place of the record that fails.
ghost use Rattle.std.specs.Prelude.{◌≡◌, Some, None, MatchResult};
ghost use Rattle.sheets.specs.Faults.{sheet_refusal, sheet_words};
ghost use Rattle.sheets.specs.declared.faults.SheetFault.TheVariants.{Record, Memory};

use refusals::{Refusal, Unlisted};
use sheet_records::faults::RecordFault;
use std::alloc::AllocError;
use std::error::Error;
use std::fmt;

/// What the sheet reader refuses: a fault of a record, a broken rule of the sheet, or want of memory.
#[derive(Clone, Copy, PartialEq, Eq, Debug)]
pub enum SheetFault {
    Record(RecordFault),
    OutOfOrder { place: usize },
    OutsideLimits { place: usize },
    LinkCount { place: usize },
    Memory,
}

impl From<RecordFault> for SheetFault {
    ghost from_gives = { λ fault told. told ≡ Record fault };

    fn from(fault: RecordFault) -> Self {
        Self::Record(fault)
    }
}

impl From<AllocError> for SheetFault {
    ghost from_gives = { λ _ told. told ≡ Memory };

    fn from(_wanting: AllocError) -> Self {
        Self::Memory
    }
}

/// Its place in the list of all refusals; want of memory has none.
impl TryFrom<SheetFault> for Refusal {
    type Error = Unlisted;

    ghost try_from_gives = { λ fault listed. MatchResult listed (λ refusal. sheet_refusal fault ≡ Some refusal) (λ _. sheet_refusal fault ≡ None) };

    fn try_from(fault: SheetFault) -> Result<Refusal, Unlisted> {
        match fault {
            SheetFault::Record(fault) => Ok(Refusal::from(fault)),
            SheetFault::OutOfOrder { place } => Ok(Refusal::OutOfOrder { place }),
            SheetFault::OutsideLimits { place } => Ok(Refusal::OutsideSheetLimits { place }),
            SheetFault::LinkCount { place } => Ok(Refusal::LinkCount { place }),
            SheetFault::Memory => Err(Unlisted),
        }
    }
}

// An `impl` for each enum: one for whatever converts to a refusal would be one for types of other crates too.
impl fmt::Display for SheetFault {
    ghost output = { λ fault. Some (sheet_words fault) };

    fn fmt<W: fmt::Write>(&self, f: &mut fmt::Formatter<W>) -> fmt::Result {
        match Refusal::try_from(*self) {
            Ok(refusal) => f.write_str(refusal.rule()),
            Err(Unlisted) => f.write_str("memory is wanting"),
        }
    }
}

impl Error for SheetFault {}
