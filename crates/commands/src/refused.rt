//! Refusals in words.
use anyhow::anyhow;
use refusals::{Carried, Refusal, Unlisted};
use sheets::faults::SheetFault;

/// Prints a refusal that is an answer by itself: its number, with the place of a record or the link where it carries one, and below it the rule.
// Lines of several values; the refusal prints its own rule.
pub fn print_rule(rt: &HostRuntime, refusal: Refusal) -> anyhow::Result<()> {
    let number = refusal.number();
    match refusal.value() {
        Carried::Place(place) => println!(rt; "fault {number} at {place}")?,
        Carried::Link(link) => println!(rt; "refused {number} at link {link}")?,
        _ => println!(rt; "refused {number}")?,
    }
    println!(rt; "{refusal}")?;
    Ok(())
}

/// Prints a fault of a sheet: its number and place, and below it the rule that the record broke.
pub fn print_fault(rt: &HostRuntime, fault: SheetFault) -> anyhow::Result<()> {
    match Refusal::try_from(fault) {
        Ok(refusal) => print_rule(rt, refusal),
        Err(Unlisted) => Err(anyhow!("there is no memory to read the sheet")),
    }
}
