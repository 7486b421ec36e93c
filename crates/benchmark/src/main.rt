//! The speed benchmark. Alone it surveys each network once and prints what the survey comes to; with a number it also repeats each survey so often and prints its time; with the word `write` and a folder it writes the sheets there.
#![tactic(auto)]

mod cases;
mod making;
mod numbers;
mod surveying;
mod tallies;

use crate::cases::Case;
use crate::surveying::tally;
use crate::tallies::Tally;
use anyhow::anyhow;
use networks::network::Network;
use networks::owned::OwnedNetwork;
use sheets::reading::read;
use std::time::{Duration, Instant};
use std::{env, fs};

// The bytes of a network's sheet.
fn sheet_of(rt: &HostRuntime, case: Case) -> anyhow::Result<Vec<u8>> {
    case.sheet(rt.alloc())
        .map_err(|_| anyhow!("there is no memory for a sheet"))
}

// What a survey of a network comes to.
fn tally_of(network: &OwnedNetwork) -> anyhow::Result<Tally> {
    tally(network).map_err(|_| anyhow!("a survey was refused"))
}

// Prints what a survey came to.
// A line of several values; the tally prints itself.
fn print_tally(
    rt: &HostRuntime,
    name: &str,
    network: &OwnedNetwork,
    tally: Tally,
) -> anyhow::Result<()> {
    let sites = network.sites();
    let links = network.links();
    println!(rt; "{name}: sites {sites} links {links} {tally}")?;
    Ok(())
}

// The time of so many surveys, each of which has to come to the same.
fn time_of(
    rt: &HostRuntime,
    network: &OwnedNetwork,
    expected: Tally,
    repeats: u32,
) -> anyhow::Result<Duration> {
    let start = Instant::now(rt)?;
    for _ in 0..repeats {
        if tally_of(network)? != expected {
            return Err(anyhow!("a survey differs from the one before"));
        }
    }
    Ok(start.elapsed(rt)?)
}

// Prints the milliseconds of one survey: a line of several values, of which a span of time prints itself in other units.
fn print_time(rt: &HostRuntime, name: &str, each: Duration) -> anyhow::Result<()> {
    let nanos = each.as_nanos();
    let whole = nanos / 1_000_000;
    let part = nanos % 1_000_000 / 100;
    println!(rt; "{name}: {whole}.{part:04} ms for one survey")?;
    Ok(())
}

// Surveys a network once, then as often as is asked for.
fn measure(rt: &HostRuntime, case: Case, repeats: u32) -> anyhow::Result<()> {
    let bytes = sheet_of(rt, case)?;
    let Ok(sheet) = read(rt.alloc(), bytes.as_slice()) else {
        return Err(anyhow!("a sheet was not read"));
    };
    let network = sheet.network;
    let tally = tally_of(&network)?;
    print_tally(rt, case.name(), &network, tally)?;
    let span = time_of(rt, &network, tally, repeats)?;
    match span.checked_div(repeats) {
        Some(each) => print_time(rt, case.name(), each),
        None => Ok(()),
    }
}

// Writes a network's sheet into a folder.
fn write_sheet(rt: &HostRuntime, case: Case, folder: &str) -> anyhow::Result<()> {
    let bytes = sheet_of(rt, case)?;
    let name = case.name();
    let path = format!(in rt.alloc(); "{folder}/{name}.sheet")?;
    fs::write(rt, path.as_str(), bytes.as_slice())?;
    Ok(())
}

// Two loops of one line, here and below: one that is passed the step would be longer than both.
fn measure_all(rt: &HostRuntime, repeats: u32) -> anyhow::Result<()> {
    for case in Case::ALL {
        measure(rt, case, repeats)?;
    }
    Ok(())
}

fn write_all(rt: &HostRuntime, folder: &str) -> anyhow::Result<()> {
    for case in Case::ALL {
        write_sheet(rt, case, folder)?;
    }
    Ok(())
}

fn run(rt: &HostRuntime) -> anyhow::Result<()> {
    let mut words = env::args(rt)?;
    let _program = words.next();
    let Some(word) = words.next() else {
        return measure_all(rt, 0);
    };
    if word.as_str() != "write" {
        return measure_all(rt, word.as_str().parse::<u32>()?);
    }
    let Some(folder) = words.next() else {
        return Err(anyhow!("write: name a folder"));
    };
    write_all(rt, folder.as_str())
}

fn main(rt: HostRuntime) -> anyhow::Result<()> {
    run(&rt)
}
