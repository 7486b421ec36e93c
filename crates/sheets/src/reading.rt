//! Reading a whole sheet.
ghost use Rattle.std.specs.Prelude.{◌≡◌};
ghost use Rattle.sheet_format.specs.Rules.{Fields};
ghost use Rattle.sheet_format.specs.Sheets.{Lawful, written};
ghost use Rattle.sheets.specs.Reads.{Reads, Gives};

use crate::faults::SheetFault;
use crate::gathering::{Sheet, gather};
use crate::judging::judge;
use std::alloc::Global;

/// The network of a sheet and its sites' names, or the first fault and its place. Memory is asked
/// for only once the bytes are known to be a sheet.
pub fn read<'a>(heap: Global, sheet: &'a [u8]) -> Result<Sheet<'a>, SheetFault>
    ensures means { Reads sheet.now result }
    ensures back { (f : Fields) → Lawful f → sheet.now ≡ written f → Gives f result }
{
    let sites = judge(sheet)?;
    Ok(gather(heap, sites, sheet)?)
}
