//! Makes the sample sheets, and the script of the sample task. Alone it holds each file of this folder to what it makes and tells how a sheet reads; with the word `write` it writes the files.
#![tactic(auto)]

use anyhow::anyhow;
use commands::day::DAY;
use commands::refused::print_fault;
use commands::sheet::print_sheet;
use commands::told::print_totals;
use records::WriteFault;
use samples::Sample;
use sheets::reading::read;
use std::{env, fs};

// The file of the script of the sample task.
const SCRIPT_NAME: &str = "day.script";

// Prints a small sheet whole, and a large one by its totals.
fn print_outcome(rt: &HostRuntime, bytes: &[u8]) -> anyhow::Result<()> {
    if bytes.len() < 1000 {
        return print_sheet(rt, bytes);
    }
    match read(rt.alloc(), bytes) {
        Ok(sheet) => print_totals(rt, &sheet.network),
        Err(fault) => print_fault(rt, fault),
    }
}

// What is said of a sample that is not made.
fn said(fault: WriteFault) -> anyhow::Error {
    match fault {
        WriteFault::Memory => anyhow!("no memory for a sample"),
        WriteFault::TooLong => anyhow!("a record of a sample is too long"),
    }
}

// Holds a file to the bytes that are made for it, and says whether it has them.
fn compare(rt: &HostRuntime, name: &str, bytes: &[u8]) -> anyhow::Result<()> {
    let stored = fs::read(rt, name)?;
    let count = bytes.len();
    if stored.as_slice() == bytes {
        println!(rt; "{name}: {count} bytes, as in the file")?;
    } else {
        println!(rt; "{name}: {count} bytes, DIFFERENT from the file")?;
    }
    Ok(())
}

fn compare_sample(rt: &HostRuntime, sample: Sample) -> anyhow::Result<()> {
    let bytes = sample.bytes(rt.alloc()).map_err(said)?;
    compare(rt, sample.file_name(), bytes.as_slice())?;
    print_outcome(rt, bytes.as_slice())
}

fn write(rt: &HostRuntime, name: &str, bytes: &[u8]) -> anyhow::Result<()> {
    fs::write(rt, name, bytes)?;
    println!(rt; "{name} written")?;
    Ok(())
}

fn write_sample(rt: &HostRuntime, sample: Sample) -> anyhow::Result<()> {
    let bytes = sample.bytes(rt.alloc()).map_err(said)?;
    write(rt, sample.file_name(), bytes.as_slice())
}

fn run(rt: &HostRuntime) -> anyhow::Result<()> {
    let mut words = env::args(rt)?;
    let _program = words.next();
    let writes = words.next().is_some_and(|word| word.as_str() == "write");
    // Asked at each sample: two loops would differ in the call alone.
    for sample in Sample::ALL {
        if writes {
            write_sample(rt, sample)?;
        } else {
            compare_sample(rt, sample)?;
        }
    }
    if writes {
        write(rt, SCRIPT_NAME, DAY.as_bytes())
    } else {
        compare(rt, SCRIPT_NAME, DAY.as_bytes())
    }
}

fn main(rt: HostRuntime) -> anyhow::Result<()> {
    run(&rt)
}
