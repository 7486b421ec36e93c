//! Reading a sheet and printing it.
use crate::refused::print_fault;
use crate::told::print_totals;
use anyhow::anyhow;
use networks::model::Link;
use networks::network::Network;
use sheet_records::reader::RecordReader;
use sheet_records::record::{Placed, Record};
use sheets::reading::read;
use std::fs;
use std::io::Read;
use std::str::from_utf8;

/// The bytes of a file, or of standard input where the name is `-`.
pub fn bytes_of(rt: &HostRuntime, name: &str) -> anyhow::Result<Vec<u8>> {
    if name == "-" {
        let mut bytes = Vec::new(rt.alloc());
        rt.stdin().read_to_end(&mut bytes)?;
        return Ok(bytes);
    }
    Ok(fs::read(rt, name)?)
}

/// Prints the records of a sheet and its totals, or its fault.
pub fn print_sheet(rt: &HostRuntime, bytes: &[u8]) -> anyhow::Result<()> {
    match read(rt.alloc(), bytes) {
        Ok(sheet) => {
            print_records(rt, bytes)?;
            print_totals(rt, &sheet.network)
        }
        Err(fault) => print_fault(rt, fault),
    }
}

// Prints record after record, each with its place.
fn print_records(rt: &HostRuntime, bytes: &[u8]) -> anyhow::Result<()> {
    let mut reader = RecordReader::new(bytes);
    let mut links: u64 = 0;
    while let Ok(Some(placed)) = reader.next() {
        links = print_record(rt, placed, links)?;
    }
    Ok(())
}

// Prints a record after so many links, and answers how many links there are then.
// A line for each kind of record, which tells the number of a link too: that is no part of the record.
fn print_record(rt: &HostRuntime, placed: Placed, links: u64) -> anyhow::Result<u64> {
    let place = placed.place;
    match placed.record {
        Record::Header {
            sites,
            links: count,
        } => {
            println!(rt; "{place}: header, {sites} sites, {count} links")?;
            Ok(links)
        }
        Record::Name { site, name } => {
            let Ok(text) = from_utf8(name) else {
                return Err(anyhow!("a name is no text"));
            };
            println!(rt; "{place}: name of site {site}, {text}")?;
            Ok(links)
        }
        Record::Link(link) => {
            print_link_record(rt, place, links, link)?;
            Ok(links.saturating_add(1))
        }
    }
}

fn print_link_record(
    rt: &HostRuntime,
    place: usize,
    number: u64,
    link: Link,
) -> anyhow::Result<()> {
    let Link {
        start,
        end,
        metres,
        poles,
        channels,
        ..
    } = link;
    println!(rt;
        "{place}: link {number}, {start} to {end}, {metres} metres, {poles} on poles, channels {channels}"
    )?;
    Ok(())
}
