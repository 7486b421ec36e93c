//! Why bytes begin with no record of a sheet, with the place of the record that fails.
ghost use Rattle.std.specs.Prelude.{◌≡◌, Some};
ghost use Rattle.refusals.specs.Numbers.{rule};
ghost use Rattle.sheet_records.specs.Faults.{record_refusal};

use refusals::Refusal;
use std::error::Error;
use std::fmt;

/// What the record reader refuses: a record that is cut short, and one of an unknown kind or the wrong length.
#[derive(Clone, Copy, PartialEq, Eq, Debug)]
pub enum RecordFault {
    CutShort { place: usize },
    WrongShape { place: usize },
}

/// Its place in the list of all refusals.
impl From<RecordFault> for Refusal {
    ghost from_gives = { λ fault refusal. refusal ≡ record_refusal fault };

    fn from(fault: RecordFault) -> Refusal {
        match fault {
            RecordFault::CutShort { place } => Refusal::CutShort { place },
            RecordFault::WrongShape { place } => Refusal::WrongShape { place },
        }
    }
}

// An `impl` for each enum: one for whatever converts to a refusal would be one for types of other crates too.
impl fmt::Display for RecordFault {
    ghost output = { λ fault. Some (rule (record_refusal fault)) };

    fn fmt<W: fmt::Write>(&self, f: &mut fmt::Formatter<W>) -> fmt::Result {
        f.write_str(Refusal::from(*self).rule())
    }
}

impl Error for RecordFault {}
