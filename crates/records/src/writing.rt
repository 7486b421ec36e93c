//! Writing a record behind other bytes, and why it is not written.
ghost use Rattle.std.specs.Prelude.{◌≡◌, ◌++◌, Some};
ghost use Rattle.records.specs.Pushing.{Pushed, write_fault_words};
ghost use Rattle.records.specs.declared.writing.WriteFault.TheVariants.{Memory};

use std::alloc::AllocError;
use std::error::Error;
use std::fmt;

/// Why a record is not written: its payload does not fit the two bytes of the length, or memory is wanting.
#[derive(Clone, Copy, PartialEq, Eq, Debug)]
pub enum WriteFault {
    TooLong,
    Memory,
}

impl From<AllocError> for WriteFault {
    ghost from_gives = { λ _ fault. fault ≡ Memory };

    fn from(_wanting: AllocError) -> Self {
        Self::Memory
    }
}

impl fmt::Display for WriteFault {
    ghost output = { λ fault. Some (write_fault_words fault) };

    fn fmt<W: fmt::Write>(&self, f: &mut fmt::Formatter<W>) -> fmt::Result {
        match self {
            WriteFault::TooLong => f.write_str("a payload is longer than 65535 bytes"),
            WriteFault::Memory => f.write_str("memory is wanting"),
        }
    }
}

impl Error for WriteFault {}

/// Appends a record whose payload comes in two parts, one after the other. What is refused leaves the bytes as they were.
pub fn push_record(
    out: &mut Vec<u8>,
    kind: u16,
    front: &[u8],
    back: &[u8],
) -> Result<(), WriteFault>
    ensures { Pushed out.old.items out.new.items kind (front.now ++ back.now) result }
{
    let size = front.len() + back.len();
    let length = u16::try_from(size).map_err(|_| WriteFault::TooLong)?;
    out.reserve(4 + size)?;
    // Room is left for all that follows.
    out.extend_from_slice(&length.to_le_bytes()).unwrap();
    out.extend_from_slice(&kind.to_le_bytes()).unwrap();
    out.extend_from_slice(front).unwrap();
    out.extend_from_slice(back).unwrap();
    Ok(())
}
